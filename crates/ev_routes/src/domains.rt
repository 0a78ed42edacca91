ghost use Rattle.std.specs.Prelude.{◌≡◌, IfOk};
ghost use Rattle.ev_model.specs.Choice.{HostDomain, is_prefix_form, is_suffix_form};

use crate::host_texts::DomainText;
use crate::routed_host::RoutedHost;
use crate::texts::{begins_with, ends_with};
use ev_types::{Shared, Text};
use std::alloc::AllocError;
use std::marker::Model;

/// A domain of a route configuration, with the virtual host that it is in.
#[derive(Drop)]
pub(crate) struct Domain {
    /// Its ASCII letters are lower case.
    text: Shared<Text>,
    host: Shared<RoutedHost>,
}

impl Model for Domain {
    ghost Value = { HostDomain };

    ghost view = { λ d. record { domain = d.text; host = d.host } };
}

impl Domain {
    /// The domain with its virtual host.
    pub(crate) fn new(text: Shared<Text>, host: Shared<RoutedHost>) -> Domain
        ensures { result ≡ record { domain = text; host = host } }
    {
        Domain { text, host }
    }

    /// The same domain again, of which nothing is copied.
    pub(crate) fn share(&self) -> Result<Domain, AllocError>
        ensures { IfOk result (λ domain. domain ≡ self.now) }
    {
        Ok(Domain {
            text: self.text.share()?,
            host: self.host.share()?,
        })
    }

    /// The key of its text.
    pub(crate) fn key(&self) -> Result<DomainText, AllocError>
        ensures { IfOk result (λ key. key ≡ self.now.domain) }
    {
        Ok(DomainText::new(self.text.share()?))
    }

    /// The domain as text.
    pub(crate) fn text(&self) -> &[u8]
        ensures { result.now ≡ self.now.domain }
    {
        self.text.get().as_str().as_bytes()
    }

    /// The virtual host that it is in.
    pub(crate) fn host(&self) -> &RoutedHost
        ensures { result.now ≡ self.now.host }
    {
        self.host.get()
    }
}

/// Whether the domain begins with a star and has more.
pub(crate) fn is_suffix_form(domain: &[u8]) -> bool
    ensures { result ≡ is_suffix_form domain.now }
{
    begins_with(domain, b"*") && domain.len() > 1
}

/// Whether the domain ends with a star and has more, and is no suffix form.
pub(crate) fn is_prefix_form(domain: &[u8]) -> bool
    ensures { result ≡ is_prefix_form domain.now }
{
    !is_suffix_form(domain) && ends_with(domain, b"*") && domain.len() > 1
}
