use crate::broken::BrokenRules;

/// What is found of a part of a body, whether or not it breaks a rule.
#[derive(Drop)]
pub struct Inspection<T> {
    /// Its value, which counts where no rule is broken.
    pub value: T,
    /// The rules that it breaks.
    pub broken: BrokenRules,
}
