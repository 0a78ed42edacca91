ghost use Rattle.std.specs.Prelude.{◌≡◌, ◌+◌, ◌^◌, ◌<◌, Some, IsSome, length, IfOk, OnOk};
ghost use Rattle.ev_types.specs.declared.contents.Kind.{Kind};
ghost use Rattle.ev_types.specs.declared.events.Answer.TheVariants.{Replied};
ghost use Rattle.ev_model.specs.World.{World};
ghost use Rattle.ev_model.specs.Live.{lives_of};
ghost use Rattle.ev_model.specs.Verdicts.{verdicts_of};
ghost use Rattle.ev_model.specs.Rows.{with_removals, add_items, made_names, with_first};
ghost use Rattle.ev_model.specs.Requests.{Watched, requests_by, reply_of};
ghost use Rattle.ev_model.specs.Step.{answered, respond};
ghost use Rattle.ev_model.specs.Watching.{kinds_before, kinds_behind};
ghost use Rattle.ev_managers.specs.Managers.{AreManagersKept};
ghost use Rattle.ev_subscription.specs.Asked.{changes_of};
ghost use Rattle.ev_subscription.specs.Subscriptions.{HasVersions};
ghost use Rattle.ev_state.specs.States.{Follows, IsStep, ManagesAt};
ghost use Rattle.ev_state.specs.Retirements.{HaveMoved};

use crate::asked::Asked;
use crate::known::Before;
use crate::state::State;
use ev_indexes::Steps;
use ev_lookups::Mentions;
use ev_managers::Moved;
use ev_subscription::reply_of;
use ev_types::{Answer, Kind, Response, Seq, Verdict};
use ev_verdicts::verdicts_by_mentions;
use std::alloc::{AllocError, Global};
use std::sync::ledger::Ledger;

impl State {
    /// A response; where no stream is open, or its type isn't read, nothing is done.
    pub fn respond<L: Ledger>(
        &mut self,
        alloc: Global,
        response: &Response,
        steps: &mut Steps<L>,
    ) -> Result<(Answer, Moved), AllocError>
        ghost here: { World }
        requires at { ManagesAt self.old here }
        requires room { 0 < length response.now.items → here.made + length response.now.items < 2 ^ 32 }
        ensures { IfOk result (λ told. IsStep self.new told.0 told.1 here (respond response.now here)) }
    {
        let (Some(kind), true) = (response.kind, self.subscription.is_open()) else {
            return Ok((Answer::Ignored, Moved::none(alloc)));
        };
        let mentions = Mentions::of(alloc, response)?;
        self.take(alloc, kind, response, &mentions, steps)
    }

    // Takes a response of this kind, of which it is known what it mentions, and answers it.
    fn take<L: Ledger>(
        &mut self,
        alloc: Global,
        kind: Kind,
        response: &Response,
        mentions: &Mentions<'_>,
        steps: &mut Steps<L>,
    ) -> Result<(Answer, Moved), AllocError>
        ghost here: { World }
        requires at { ManagesAt self.old here }
        requires mentions { mentions.now ≡ response.now }
        requires typed { mentions.now.kind ≡ Some kind }
        requires room { 0 < length mentions.now.items → here.made + length mentions.now.items < 2 ^ 32 }
        ensures { IfOk result (λ told. IsStep self.new told.0 told.1 here
            (answered kind response.now (verdicts_of (lives_of here) here.versions response.now) here)) }
    {
        let verdicts = self.judge(alloc, mentions)?;
        let made = self.made();
        let mut moved = self.enter(alloc, kind, verdicts.as_slice(), mentions, steps)?;
        let asked = self.tidy(alloc, made, &mut moved, steps)?;
        let answer = self.reply(alloc, kind, response, verdicts, asked)?;
        Ok((answer, moved))
    }

    // The verdicts on the resources of a response that wasn't taken yet.
    fn judge(&self, alloc: Global, mentions: &Mentions<'_>) -> Result<Seq<Verdict>, AllocError>
        requires kept { AreManagersKept self.now.managers }
        requires typed { IsSome mentions.now.kind }
        ensures one_each { IfOk result (λ verdicts. length verdicts ≡ length mentions.now.items) }
        ensures judged { IfOk result (λ verdicts. (kind : Kind) (world : World) → ManagesAt self.now world
            → mentions.now.kind ≡ Some kind → verdicts ≡ verdicts_of (lives_of world) world.versions mentions.now) }
    {
        let before = Before::new(&self.managers, &self.subscription);
        let verdicts = verdicts_by_mentions(alloc, &before, mentions)?;
        Ok(verdicts)
    }

    // The answer to a response: its reply and what its changes ask for, and the verdicts.
    fn reply(
        &self,
        alloc: Global,
        kind: Kind,
        response: &Response,
        verdicts: Seq<Verdict>,
        asked: Asked,
    ) -> Result<Answer, AllocError>
        requires one_each { length verdicts ≡ length response.now.items }
        ensures { IfOk result (λ answer. (world : World) (before after : Watched)
            → HasVersions self.now.subscription world
            → asked.before ≡ changes_of kinds_before before after
            → asked.behind ≡ changes_of kinds_behind before after
            → answer ≡ Replied (requests_by world.stream before after asked.left world.versions
            (Some (reply_of kind response.now verdicts))) verdicts) }
    {
        let reply = reply_of(alloc, kind, response, verdicts.as_slice())?;
        let requests = self
            .subscription
            .requests_after(alloc, Some(reply), asked.before, asked.behind, asked.left)?;
        Ok(Answer::Replied { requests, verdicts })
    }

    // What a response does to each part, by the verdicts on its resources. Answers what it moves.
    fn enter<L: Ledger>(
        &mut self,
        alloc: Global,
        kind: Kind,
        verdicts: &[Verdict],
        mentions: &Mentions<'_>,
        steps: &mut Steps<L>,
    ) -> Result<Moved, AllocError>
        ghost here: { World }
        requires at { ManagesAt self.old here }
        requires typed { mentions.now.kind ≡ Some kind }
        requires room { here.made + length mentions.now.items < 2 ^ 32 }
        requires one_each { length verdicts.now ≡ length mentions.now.items }
        requires judged { verdicts.now ≡ verdicts_of (lives_of here) here.versions mentions.now }
        ensures kept { OnOk result (AreManagersKept self.new.managers) }
        ensures follows { OnOk result (Follows self.new here
            (with_first kind (made_names verdicts.now mentions.now.items)
            (add_items kind verdicts.now mentions.now.items (with_removals kind mentions.now here)))) }
        ensures moved { IfOk result (λ moved. HaveMoved moved here
            (with_first kind (made_names verdicts.now mentions.now.items)
            (add_items kind verdicts.now mentions.now.items (with_removals kind mentions.now here)))) }
    {
        let response = mentions.response();
        let mut changed = Seq::new(alloc);
        self.put_all_dependents(kind, response, &mut changed)?;
        let retired = self
            .managers
            .respond(alloc, kind, mentions, verdicts, steps)?;
        let moved = Moved::of(retired, changed)?;
        self.subscription.respond(alloc, kind, verdicts, mentions)?;
        self.targets.note_first(alloc, kind, response, verdicts)?;
        Ok(moved)
    }
}
