ghost use Rattle.ev_dump.specs.Dumps.{DumpsByPrefix};

/// A law of the machine: two legal journals of one format that agree in their first entries have one dump
/// of these, whatever comes after in their scripts and journals,
/// and whatever their workers and nodes are. It does nothing.
pub fn dumps_by_prefix()
    ensures { DumpsByPrefix }
{}
