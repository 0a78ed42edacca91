ghost use Rattle.std.specs.Prelude.{◌≡◌, OnOk, length};
ghost use Rattle.ev_model.specs.Rows.{add_item, add_items};
ghost use Rattle.ev_subscription.specs.Subscriptions.{StandsAfter, with_good, with_response};

use crate::subscription::Subscription;
use ev_lookups::Mentions;
use ev_types::{Body, Item, Kind, TryCopy, Verdict};
use std::alloc::{AllocError, Global};

impl Subscription {
    /// A response of this kind, by what it mentions, with the verdicts on its resources: the versions of removed
    /// names are forgotten; then, in order, the version of each resource that is taken is held (it is new, in place,
    /// what serves, the same or kept), and a heartbeat bounds a life anew. Out of memory, it is unspecified.
    pub fn respond(
        &mut self,
        alloc: Global,
        kind: Kind,
        verdicts: &[Verdict],
        mentions: &Mentions<'_>,
    ) -> Result<(), AllocError>
        requires { length verdicts.now ≡ length mentions.now.items }
        // Whatever world it represented, it represents that world once the response's removals and resources are in.
        ensures { OnOk result (StandsAfter (with_response kind verdicts.now mentions.now) self.old self.new) }
    {
        self.forget_removed(kind, mentions);
        let response = mentions.response();
        self.keep_all(alloc, kind, verdicts, response.items.as_slice())
    }

    // The resources of a response, in order, each with its verdict.
    fn keep_all(
        &mut self,
        alloc: Global,
        kind: Kind,
        verdicts: &[Verdict],
        items: &[Item],
    ) -> Result<(), AllocError>
        requires { length verdicts.now ≡ length items.now }
        ensures { OnOk result (StandsAfter (add_items kind verdicts.now items.now) self.old self.new) }
    {
        for (place, item) in items.iter().enumerate() {
            self.keep(alloc, kind, &verdicts[place], item)?;
        }
        Ok(())
    }

    // One resource with its verdict.
    fn keep(
        &mut self,
        alloc: Global,
        kind: Kind,
        verdict: &Verdict,
        item: &Item,
    ) -> Result<(), AllocError>
        ensures { OnOk result (StandsAfter (add_item kind verdict.now item.now) self.old self.new) }
    {
        match verdict {
            Verdict::New | Verdict::InPlace | Verdict::Back | Verdict::Same | Verdict::Kept =>
                self.keep_good(alloc, kind, item),
            Verdict::Renewed => {
                self.renew(kind, item.name.as_str());
                Ok(())
            }
            Verdict::Unasked | Verdict::Refused(_) => Ok(()),
        }
    }

    // The version of a resource, where its body is good.
    fn keep_good(&mut self, alloc: Global, kind: Kind, item: &Item) -> Result<(), AllocError>
        ensures { OnOk result (StandsAfter (with_good kind item.now) self.old self.new) }
    {
        let Body::Good(_) = &item.body else {
            return Ok(());
        };
        let name = item.resource_name(alloc)?;
        let version = item.version.copy(alloc)?;
        self.accept(kind, name, version, item.ttl)
    }
}
