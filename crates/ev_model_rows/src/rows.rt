ghost use Rattle.ev_model_rows.specs.ContentReturns.{ContentReturnsAnswers, ContentReturnsPictures};
ghost use Rattle.ev_model_rows.specs.TwoTimeouts.{TwoTimeoutsAnswers, TwoTimeoutsPictures};
ghost use Rattle.ev_model_rows.specs.GrowingAssignment.{GrowingAssignmentAnswers, GrowingAssignmentPictures};
ghost use Rattle.ev_model_rows.specs.NoHosts.{NoHostsAnswers, NoHostsPictures};
ghost use Rattle.ev_model_rows.specs.LateBatch.{LateBatchAnswers, LateBatchPictures};
ghost use Rattle.ev_model_rows.specs.DrainTimer.{DrainTimerAnswers, DrainTimerPictures};
ghost use Rattle.ev_model_rows.specs.OneAddress.{OneAddressAnswers, OneAddressPictures};
ghost use Rattle.ev_model_rows.specs.WatchEndsAndBegins.{WatchEndsAndBeginsAnswers, WatchEndsAndBeginsPictures};
ghost use Rattle.ev_model_rows.specs.LostStream.{LostStreamAnswers};
ghost use Rattle.ev_model_rows.specs.OneRefusedOfTwo.{OneRefusedOfTwoAnswers};
ghost use Rattle.ev_model_rows.specs.RefusedUpdate.{RefusedUpdateAnswers, RefusedUpdatePictures};
ghost use Rattle.ev_model_rows.specs.SameContentNewVersion.{SameContentNewVersionAnswers};
ghost use Rattle.ev_model_rows.specs.InUse.{InUseAnswers};
ghost use Rattle.ev_model_rows.specs.TimeoutsOfListeners.{TimeoutsOfListenersAnswers};
ghost use Rattle.ev_model_rows.specs.Realistic.{RealisticAnswers, RealisticPictures};
ghost use Rattle.ev_model_rows.specs.Automatic.{AutomaticAnswers, AutomaticPictures};
ghost use Rattle.ev_model_rows.specs.Domains.{DomainsAnswers, DomainsPictures};
ghost use Rattle.ev_model_rows.specs.Weights.{WeightsAnswers, WeightsPictures};
ghost use Rattle.ev_model_rows.specs.Ttl.{TtlAnswers};
ghost use Rattle.ev_model_rows.specs.TtlOfEndpoints.{TtlOfEndpointsAnswers, TtlOfEndpointsPictures};
ghost use Rattle.ev_model_rows.specs.DrainedListenersWait.{AnswersOfFormat1, DrainedListenersWaitAnswers};
ghost use Rattle.ev_model_rows.specs.FullBatch.{IsFull};
ghost use Rattle.ev_model_rows.specs.Findings.{Found};
ghost use Rattle.ev_model_rows.specs.Narrowing.{NoWayBack, Ranges, Names, Transports, Protocols, Sources, SourceTypes};
ghost use Rattle.ev_model_rows.specs.Conditions.{There, Missing, NumberRanges, Queries, Unclear, OfPath, Paths};
ghost use Rattle.ev_model_rows.specs.FreshEndpoints.{FreshEndpointsAnswers, FreshEndpointsPictures};
ghost use Rattle.ev_model_rows.specs.LateTimeouts.{LateTimeoutsAnswers};
ghost use Rattle.ev_model_rows.specs.SharedRoutes.{SharedRoutesAnswers};
ghost use Rattle.ev_model_rows.specs.TwoMarks.{TwoMarksAnswers};
ghost use Rattle.ev_model_rows.specs.ChainsInOrder.{ChainsInOrderAnswers};
ghost use Rattle.ev_model_rows.specs.OpenRoutes.{OpenRoutesAnswers};
ghost use Rattle.ev_model_rows.specs.WhatOpens.{WhatOpensAnswers};
ghost use Rattle.ev_model_rows.specs.EveryAddress.{EveryAddressAnswers};
ghost use Rattle.ev_model_rows.specs.Redirected.{RedirectedAnswers};
ghost use Rattle.ev_model_rows.specs.ListenersInPlace.{ChangesInPlace, ComesBack, GoesBack};
ghost use Rattle.ev_model_rows.specs.MissingSecrets.{MissingSecretsAnswers};

/// A content that returns: an update that never warmed is dropped,
/// and the generation that served goes once nothing holds it. It does nothing.
pub fn content_returns()
    ensures answers { ContentReturnsAnswers }
    ensures pictures { ContentReturnsPictures }
{}

/// Two clusters wait for one name: a fetch timeout releases the one whose wait is limited, and a value,
/// a word of the control plane, the other. It does nothing.
pub fn two_timeouts()
    ensures answers { TwoTimeoutsAnswers }
    ensures pictures { TwoTimeoutsPictures }
{}

/// An assignment grows while its checked cluster warms:
/// it is warm once each host of the assignment then has a result. It does nothing.
pub fn growing_assignment()
    ensures answers { GrowingAssignmentAnswers }
    ensures pictures { GrowingAssignmentPictures }
{}

/// A cluster without hosts is warm, and has no endpoint for a connection. It does nothing.
pub fn no_hosts()
    ensures answers { NoHostsAnswers }
    ensures pictures { NoHostsPictures }
{}

/// A batch comes before the settle that ends it, and what it opened keeps its generation
/// until it is closed. It does nothing.
pub fn late_batch()
    ensures answers { LateBatchAnswers }
    ensures pictures { LateBatchPictures }
{}

/// The drain timer of a listener: connections on its old generation are closed
/// when their worker settles. It does nothing.
pub fn drain_timer()
    ensures answers { DrainTimerAnswers }
    ensures pictures { DrainTimerPictures }
{}

/// A live listener owns its address; once it is removed, another may have it in the same response. It does nothing.
pub fn one_address()
    ensures answers { OneAddressAnswers }
    ensures pictures { OneAddressPictures }
{}

/// A watch that another cluster takes over keeps its value; one that ends and begins again waits anew. It does nothing.
pub fn watch_ends_and_begins()
    ensures answers { WatchEndsAndBeginsAnswers }
    ensures pictures { WatchEndsAndBeginsPictures }
{}

/// A stream that is lost and opened again: nothing else changes,
/// and what is held is named at the connect. It does nothing.
pub fn lost_stream()
    ensures answers { LostStreamAnswers }
{}

/// One resource of two is refused: the response is, and the good one is applied. It does nothing.
pub fn one_refused_of_two()
    ensures answers { OneRefusedOfTwoAnswers }
{}

/// An update that is refused takes nothing away. It does nothing.
pub fn refused_update()
    ensures answers { RefusedUpdateAnswers }
    ensures pictures { RefusedUpdatePictures }
{}

/// A resource whose content is that of the newest generation makes none, and its version is kept. It does nothing.
pub fn same_content_new_version()
    ensures answers { SameContentNewVersionAnswers }
{}

/// A connection number is in use until it is closed. It does nothing.
pub fn in_use()
    ensures answers { InUseAnswers }
{}

/// Fetch timeouts of clusters, listeners and routes. It does nothing.
pub fn timeouts_of_listeners()
    ensures answers { TimeoutsOfListenersAnswers }
{}

/// A proxy with two workers boots, serves and closes. It does nothing.
pub fn realistic()
    ensures answers { RealisticAnswers }
    ensures pictures { RealisticPictures }
{}

/// With `auto` each line of the stream, the health checker and the timers is followed by a publication
/// and a reaping. It does nothing.
pub fn automatic()
    ensures answers { AutomaticAnswers }
    ensures pictures { AutomaticPictures }
{}

/// A virtual host is found by its domains: one that is equal, then the longest suffix, then `*`;
/// ASCII letters in either case. It does nothing.
pub fn domains()
    ensures answers { DomainsAnswers }
    ensures pictures { DomainsPictures }
{}

/// A pick takes a cluster by the weights of the target, and its quotient a host by the weights
/// of the cluster. It does nothing.
pub fn weights()
    ensures answers { WeightsAnswers }
    ensures pictures { WeightsPictures }
{}

/// A heartbeat renews the version that is kept, one of another version is refused,
/// and the end of a time to live removes. It does nothing.
pub fn ttl()
    ensures answers { TtlAnswers }
{}

/// At the end of their time to live a cluster's endpoints become none, and the cluster stays. It does nothing.
pub fn ttl_of_endpoints()
    ensures answers { TtlOfEndpointsAnswers }
    ensures pictures { TtlOfEndpointsPictures }
{}

/// A drained listener waits for its drain timeout in format 2, and not in format 1. It does nothing.
pub fn drained_listeners_wait()
    ensures answers { DrainedListenersWaitAnswers }
    ensures answers_of_format_1 { AnswersOfFormat1 }
{}

/// A batch is full with 256 lines: a settle is forced after the 256th, and not after its neighbours. It does nothing.
pub fn full_batch()
    ensures { IsFull }
{}

/// What is found of the journal of the late batch: it is legal, and in three other forms it isn't. It does nothing.
pub fn findings()
    ensures { Found }
{}

/// Filter chains are narrowed by port, address, server name, transport and application protocols,
/// then by where a connection comes from, and nothing comes back. It does nothing.
pub fn narrowing()
    ensures no_way_back { NoWayBack }
    ensures ranges { Ranges }
    ensures names { Names }
    ensures transports { Transports }
    ensures protocols { Protocols }
    ensures sources { Sources }
    ensures source_types { SourceTypes }
{}

/// What routes ask of headers and paths, and what that says where a header is missing
/// or nothing decides it. It does nothing.
pub fn conditions()
    ensures there { There }
    ensures missing { Missing }
    ensures ranges { NumberRanges }
    ensures paths { Paths }
{}

/// What routes ask of query parameters, and what that says where Envoy may decode a query to another. It does nothing.
pub fn queries()
    ensures texts { Queries }
    ensures unclear { Unclear }
    ensures path { OfPath }
{}

/// An updated cluster waits until its endpoints are sent anew, though they are known,
/// and the same ones wake it. It does nothing.
pub fn fresh_endpoints()
    ensures answers { FreshEndpointsAnswers }
    ensures pictures { FreshEndpointsPictures }
{}

/// A fetch timeout that came before an update doesn't count for it. It does nothing.
pub fn late_timeouts()
    ensures answers { LateTimeoutsAnswers }
{}

/// Listeners share what was received for a name of routes. It does nothing.
pub fn shared_routes()
    ensures answers { SharedRoutesAnswers }
{}

/// Two chains of a listener wait for one name, one within a limit and one without. It does nothing.
pub fn two_marks()
    ensures answers { TwoMarksAnswers }
{}

/// Connections go to the filter chain that is left by each criterion in its order, else to the default chain,
/// or to none. It does nothing.
pub fn chains_in_order()
    ensures answers { ChainsInOrderAnswers }
{}

/// The first route that doesn't say no decides, or where it is open, nothing in a script does. It does nothing.
pub fn open_routes()
    ensures answers { OpenRoutesAnswers }
{}

/// What a connection is open on that no chain takes, or whose way no script tells. It does nothing.
pub fn what_opens()
    ensures answers { WhatOpensAnswers }
{}

/// A listener that takes every address of its port serves what no other listener has. It does nothing.
pub fn every_address()
    ensures answers { EveryAddressAnswers }
{}

/// A redirected connection is taken by the listener where it was delivered,
/// or by the one where it is meant to go. It does nothing.
pub fn redirected()
    ensures answers { RedirectedAnswers }
{}

/// A listener is changed in place: connections move with the chains that stay,
/// and a roll-back leaves all as it was. It does nothing.
pub fn listeners_in_place()
    ensures changes { ChangesInPlace }
    ensures comes_back { ComesBack }
    ensures goes_back { GoesBack }
{}

/// Connections that lack a secret fail; a secret that comes mends them,
/// and its removal changes nothing. It does nothing.
pub fn missing_secrets()
    ensures answers { MissingSecretsAnswers }
{}
