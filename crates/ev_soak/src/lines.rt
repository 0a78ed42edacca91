ghost use Rattle.std.specs.Prelude.{◌≡◌, ◌+◌, ◌<◌, ◌^◌, IfOk, IfSome, Some};
ghost use Rattle.ev_types.specs.Items.{IsOwnName, content_kind};
ghost use Rattle.ev_types.specs.declared.contents.Body.TheVariants.{Good};
ghost use Rattle.ev_soak.specs.Draws.{next_state, behind, drawn};
ghost use Rattle.ev_soak.specs.Soak.{form_of, draws_of, line_drawn, response_line, resource_line, health_line, fetch_timeout_line, drain_timeout_line, settle_line, accept_line, close_line};

use crate::draws::Draws;
use crate::forms::{Form, form_of};
use crate::parts::{
    cluster_content, cluster_name, host_numbered, hosts_content, listener_content, listener_name,
    listening, numbered_text, routes_content, routes_name,
};
use ev_types::{
    Actor, Ask, Body, Content, Event, FetchTimeout, Ip, Item, Kind, Line, Name, Response, Seq,
    Shared, Text,
};
use std::alloc::{AllocError, Global};

// The first port that listeners listen on.
const FIRST_PORT: u16 = 8000;

// The line of this number: its form is drawn first.
#[tactic(auto, using(crate::proofs::DrawLemmas::drawn_line, crate::proofs::DrawLemmas::drawn_state))]
pub(crate) fn draw_line(alloc: Global, draws: &mut Draws, at: u32) -> Result<Line, AllocError>
    ensures line { let form = form_of (drawn 14 draws.old.state) in
        IfOk result (λ line. line ≡ line_drawn form at (next_state draws.old.state)) }
    ensures state { let form = form_of (drawn 14 draws.old.state) in
        draws.new.state ≡ behind (draws_of form) (next_state draws.old.state) }
{
    let form = form_of(draws.draw(14));
    line_of(alloc, draws, form, at)
}

// The line of this number, of a form.
fn line_of(alloc: Global, draws: &mut Draws, form: Form, at: u32) -> Result<Line, AllocError>
    ensures line { IfOk result (λ line. line ≡ line_drawn form at draws.old.state) }
    ensures state { draws.new.state ≡ behind (draws_of form) draws.old.state }
{
    match form {
        Form::Clusters => clusters(alloc, draws, at),
        Form::Endpoints => endpoints(alloc, draws, at),
        Form::Listeners => listeners(alloc, draws, at),
        Form::RouteTables => route_tables(alloc, draws, at),
        Form::HealthResults => health_results(alloc, draws, at),
        Form::FetchTimeouts => fetch_timeouts(alloc, draws, at),
        Form::DrainTimeouts => drain_timeouts(alloc, draws, at),
        Form::Removals => removals(alloc, draws, at),
        Form::Settles => Ok(settles(draws, at)),
        Form::Accepts => accepts(alloc, draws, at),
        Form::Closes => Ok(closes(draws, at)),
    }
}

// A response with a cluster.
#[tactic(auto, using(crate::proofs::NameLemmas::own_cluster))]
fn clusters(alloc: Global, draws: &mut Draws, at: u32) -> Result<Line, AllocError>
    ensures line { IfOk result (λ line. line ≡ line_drawn Form.Clusters at draws.old.state) }
    ensures state { draws.new.state ≡ behind (draws_of Form.Clusters) draws.old.state }
{
    let cluster = draws.draw(8);
    let checked = draws.draw(2) == 1;
    let content = cluster_content(alloc, cluster, checked)?;
    let name = cluster_name(alloc, cluster)?;
    resource_line(alloc, at, Kind::Cds, &name, content)
}

// A response with the hosts of a cluster.
#[tactic(auto, using(crate::proofs::NameLemmas::own_hosts))]
fn endpoints(alloc: Global, draws: &mut Draws, at: u32) -> Result<Line, AllocError>
    ensures line { IfOk result (λ line. line ≡ line_drawn Form.Endpoints at draws.old.state) }
    ensures state { draws.new.state ≡ behind (draws_of Form.Endpoints) draws.old.state }
{
    let cluster = draws.draw(8);
    let count = 1 + draws.draw(3);
    let content = hosts_content(alloc, count)?;
    let name = cluster_name(alloc, cluster)?;
    resource_line(alloc, at, Kind::Eds, &name, content)
}

// A response with a listener.
#[tactic(auto, using(crate::proofs::NameLemmas::own_listener))]
fn listeners(alloc: Global, draws: &mut Draws, at: u32) -> Result<Line, AllocError>
    ensures line { IfOk result (λ line. line ≡ line_drawn Form.Listeners at draws.old.state) }
    ensures state { draws.new.state ≡ behind (draws_of Form.Listeners) draws.old.state }
{
    let listener = draws.draw(4);
    let port = FIRST_PORT + draws.draw(6) as u16;
    let content = listener_content(alloc, listener, port)?;
    let name = listener_name(alloc, listener)?;
    resource_line(alloc, at, Kind::Lds, &name, content)
}

// A response with a listener's routes.
#[tactic(auto, using(crate::proofs::NameLemmas::own_routes))]
fn route_tables(alloc: Global, draws: &mut Draws, at: u32) -> Result<Line, AllocError>
    ensures line { IfOk result (λ line. line ≡ line_drawn Form.RouteTables at draws.old.state) }
    ensures state { draws.new.state ≡ behind (draws_of Form.RouteTables) draws.old.state }
{
    let routes = draws.draw(4);
    let cluster = draws.draw(8);
    let content = routes_content(alloc, cluster)?;
    let name = routes_name(alloc, routes)?;
    resource_line(alloc, at, Kind::Rds, &name, content)
}

// A health result.
fn health_results(alloc: Global, draws: &mut Draws, at: u32) -> Result<Line, AllocError>
    ensures line { IfOk result (λ line. line ≡ line_drawn Form.HealthResults at draws.old.state) }
    ensures state { draws.new.state ≡ behind (draws_of Form.HealthResults) draws.old.state }
{
    let cluster = draws.draw(8);
    let host = 1 + draws.draw(3);
    let healthy = draws.draw(4) != 0;
    Ok(Line {
        at,
        actor: Actor::Health,
        event: Event::Health {
            cluster: cluster_name(alloc, cluster)?,
            host: host_numbered(alloc, host)?,
            healthy,
        },
    })
}

// A cluster's hosts are waited for no longer.
fn fetch_timeouts(alloc: Global, draws: &mut Draws, at: u32) -> Result<Line, AllocError>
    ensures line { IfOk result (λ line. line ≡ line_drawn Form.FetchTimeouts at draws.old.state) }
    ensures state { draws.new.state ≡ behind (draws_of Form.FetchTimeouts) draws.old.state }
{
    let cluster = draws.draw(8);
    let timeout = FetchTimeout {
        kind: Kind::Eds,
        name: Some(cluster_name(alloc, cluster)?),
    };
    Ok(Line {
        at,
        actor: Actor::Timer,
        event: Event::FetchTimeout(timeout),
    })
}

// A listener has drained.
fn drain_timeouts(alloc: Global, draws: &mut Draws, at: u32) -> Result<Line, AllocError>
    ensures line { IfOk result (λ line. line ≡ line_drawn Form.DrainTimeouts at draws.old.state) }
    ensures state { draws.new.state ≡ behind (draws_of Form.DrainTimeouts) draws.old.state }
{
    let listener = draws.draw(4);
    Ok(Line {
        at,
        actor: Actor::Timer,
        event: Event::DrainTimeout(listener_name(alloc, listener)?),
    })
}

// A response that removes a cluster.
fn removals(alloc: Global, draws: &mut Draws, at: u32) -> Result<Line, AllocError>
    ensures line { IfOk result (λ line. line ≡ line_drawn Form.Removals at draws.old.state) }
    ensures state { draws.new.state ≡ behind (draws_of Form.Removals) draws.old.state }
{
    let cluster = draws.draw(8);
    let removed = vec![in alloc; numbered_text(alloc, "c", cluster)?]?;
    let response = Response {
        kind: Some(Kind::Cds),
        nonce: numbered_text(alloc, "n", at)?,
        items: Seq::new(alloc),
        removed: Seq::from_vec(removed),
    };
    stream_line(alloc, at, response)
}

// A worker settles.
fn settles(draws: &mut Draws, at: u32) -> Line
    ensures line { result ≡ line_drawn Form.Settles at draws.old.state }
    ensures state { draws.new.state ≡ behind (draws_of Form.Settles) draws.old.state }
{
    let worker = draws.draw(2);
    Line {
        at,
        actor: Actor::Worker(worker),
        event: Event::Settle,
    }
}

// A worker accepts a connection.
fn accepts(alloc: Global, draws: &mut Draws, at: u32) -> Result<Line, AllocError>
    ensures line { IfOk result (λ line. line ≡ line_drawn Form.Accepts at draws.old.state) }
    ensures state { draws.new.state ≡ behind (draws_of Form.Accepts) draws.old.state }
{
    let worker = draws.draw(2);
    let conn = u64::from(draws.draw(200));
    let port = FIRST_PORT + draws.draw(6) as u16;
    let pick = u64::from(draws.draw(1000));
    let address = listening(alloc, port)?;
    let ask = Ask {
        conn,
        ip: Ip::read(address.address.as_str()),
        address,
        source: None,
        redirected_to: None,
        server_name: Text::new(alloc, "")?,
        tls: false,
        alpn: Seq::new(alloc),
        host: Text::new(alloc, "a")?,
        path: Text::new(alloc, "/")?,
        headers: Seq::new(alloc),
        pick,
    };
    Ok(Line {
        at,
        actor: Actor::Worker(worker),
        event: Event::Accept(Shared::new(alloc, ask)?),
    })
}

// A worker closes a connection.
fn closes(draws: &mut Draws, at: u32) -> Line
    ensures line { result ≡ line_drawn Form.Closes at draws.old.state }
    ensures state { draws.new.state ≡ behind (draws_of Form.Closes) draws.old.state }
{
    let worker = draws.draw(2);
    let conn = u64::from(draws.draw(200));
    Line {
        at,
        actor: Actor::Worker(worker),
        event: Event::Close(conn),
    }
}

// A line with a response of one resource, which has this name and content.
fn resource_line(
    alloc: Global,
    at: u32,
    kind: Kind,
    name: &Name,
    content: Content,
) -> Result<Line, AllocError>
    requires own { IsOwnName name.now (Good content) }
    requires kind { content_kind content ≡ kind }
    ensures { IfOk result (λ line. line ≡ resource_line at kind name.now content) }
{
    let item = Item {
        name: Text::new(alloc, name.as_str())?,
        version: numbered_text(alloc, "", at)?,
        ttl: false,
        body: Body::Good(content),
    };
    let response = Response {
        kind: Some(kind),
        nonce: numbered_text(alloc, "n", at)?,
        items: Seq::from_vec(vec![in alloc; item]?),
        removed: Seq::new(alloc),
    };
    stream_line(alloc, at, response)
}

// A line with a response.
fn stream_line(alloc: Global, at: u32, response: Response) -> Result<Line, AllocError>
    ensures { IfOk result (λ line. line ≡ record { at = at; actor = Actor.Stream; event = Event.Response response }) }
{
    Ok(Line {
        at,
        actor: Actor::Stream,
        event: Event::Response(Shared::new(alloc, response)?),
    })
}
