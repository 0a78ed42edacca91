ghost use Rattle.ev_run.specs.Laws.{ActsOn, BeginsActing, BeginsWorking, CommitsAsDue, EndsActing, EndsWorking, JoinsAsDue, LeavesOutAsDue, MayActNext, MayWorkNext, WorksOn};

/// Laws of an actor of the main side: it begins with all its operations, may make what is due next,
/// goes on by each entry of its own, also after entries of others,
/// and has done all where nothing is left. It does nothing.
pub fn main_side_fits()
    ensures begins { BeginsActing }
    ensures next { MayActNext }
    ensures goes_on { ActsOn }
    ensures ends { EndsActing }
{}

/// Laws of a worker: it begins with all its operations, may make what is due next,
/// and its batch has room for it. It goes on by each accept or close that joins the batch and by each settle,
/// made or left out, and has done all where nothing is left. It does nothing.
pub fn workers_fit()
    ensures begins { BeginsWorking }
    ensures next { MayWorkNext }
    ensures joins { JoinsAsDue }
    ensures commits { CommitsAsDue }
    ensures leaves_out { LeavesOutAsDue }
    ensures goes_on { WorksOn }
    ensures ends { EndsWorking }
{}
