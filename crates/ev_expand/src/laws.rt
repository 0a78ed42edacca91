ghost use Rattle.ev_expand.specs.Scripts.{TextsAreScripts};
ghost use Rattle.ev_expand.specs.Waiting.{ResourcesWait, LinesWait, LinesFollow};

/// A law: a guarded resource is read as the cluster of its key, with endpoints that come by the private name of the
/// key's number and are waited for without limit. It does nothing.
pub fn resources_wait()
    ensures { ResourcesWait }
{}

/// A law: a line with guarded resources is read as the response that it was, with these as they wait under the names
/// that they had. It does nothing.
pub fn lines_wait()
    ensures { LinesWait }
{}

/// A law: a line that follows is read as a response of endpoints, those of what is due, by private names. It does
/// nothing.
pub fn lines_follow()
    ensures { LinesFollow }
{}

/// A law: the text that a command makes of a script is, as a whole input, a script without fault, of the header and
/// the lines that the command makes. It does nothing.
pub fn texts_are_scripts()
    ensures { TextsAreScripts }
{}
