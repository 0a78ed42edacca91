//! Worked rows of the flat machine. Each function does nothing;
//! its contract says that a replay by the machine's definitions gives the answers and the pictures of the row,
//! as they are in `specs/`, and is proved by computing both sides.
#![tactic(auto)]

mod rows;

pub use rows::{
    automatic, chains_in_order, conditions, content_returns, domains, drain_timer,
    drained_listeners_wait, every_address, findings, fresh_endpoints, full_batch,
    growing_assignment, in_use, late_batch, late_timeouts, listeners_in_place, lost_stream,
    missing_secrets, narrowing, no_hosts, one_address, one_refused_of_two, open_routes, realistic,
    redirected, refused_update, same_content_new_version, shared_routes, timeouts_of_listeners,
    ttl, ttl_of_endpoints, two_marks, two_timeouts, watch_ends_and_begins, weights, what_opens,
};
