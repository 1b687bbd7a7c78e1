//! Which specifications and which services match.

ghost use Rattle.std.specs.Prelude.{◌≡◌, ◌&&◌, ◌||◌, not};
ghost use Rattle.std.specs.List.{list_any, list_all};
ghost use Rattle.std.specs.Str.{bytes_eq};
ghost use Rattle.sk_msg.specs.Matching.{fits, all_fit, match_specs, match_services};

use crate::label::{Label, LabelKind};
use crate::service::{Service, ServiceKind};
use crate::spec::Spec;

/// Whether the reader takes what the writer gives: their topics are equal, the reader's media type
/// is empty or the writer's, and the labels of either side fit those of the other. A mandatory
/// label needs its key with its value there; an optional one an equal value where its key is there.
/// Of a remote call the client reads and the server writes.
///
/// Each label is compared with each of the other side, of which there are at most 16.
#[tactic(auto, unfolding(crate::specs::Matching::match_specs))]
pub fn matches(reader: &Spec, writer: &Spec) -> bool
    ensures { result ≡ match_specs reader.now writer.now }
{
    reader.topic().is(writer.topic())
        && (reader.media().as_str().is_empty()
            || reader.media().as_str() == writer.media().as_str())
        && all_fit(writer.labels(), reader.labels())
        && all_fit(reader.labels(), writer.labels())
}

impl Service {
    /// Whether what one of the two gives is for the other: they are controllers of one kind of bus,
    /// a subscriber and a publisher, or a client and a server, and their specifications match. Of
    /// two controllers this one is the reader.
    #[tactic(auto, unfolding(crate::specs::Matching::match_services))]
    pub fn matches(&self, other: &Service) -> bool
        ensures { result ≡ match_services self.now other.now }
    {
        match (self.kind, other.kind) {
            (ServiceKind::Can, ServiceKind::Can)
            | (ServiceKind::Ethernet, ServiceKind::Ethernet)
            | (ServiceKind::Lin, ServiceKind::Lin)
            | (ServiceKind::Subscriber, ServiceKind::Publisher)
            | (ServiceKind::Client, ServiceKind::Server) => matches(&self.spec, &other.spec),
            (ServiceKind::Publisher, ServiceKind::Subscriber)
            | (ServiceKind::Server, ServiceKind::Client) => matches(&other.spec, &self.spec),
            _ => false,
        }
    }
}

/// Whether each of these labels fits the others.
fn all_fit(others: &[Label], labels: &[Label]) -> bool
    ensures { result ≡ all_fit others.now labels.now }
{
    labels.iter().all(|label| fits(others, label))
}

/// Whether the label finds what it needs among the others.
fn fits(others: &[Label], label: &Label) -> bool
    ensures { result ≡ fits others.now label.now.kind label.now }
{
    match label.kind {
        LabelKind::Mandatory => has_value(others, label),
        LabelKind::Optional => has_no_other_value(others, label),
    }
}

/// Whether one of the others has the label's key and value.
fn has_value(others: &[Label], label: &Label) -> bool
    ensures { result ≡
        list_any (λ other. bytes_eq other.key label.now.key && bytes_eq other.value label.now.value) others.now }
{
    others.iter().any(|other| {
        other.key.is(&label.key) && other.value.as_str() == label.value.as_str()
    })
}

/// Whether each of the others that has the label's key has its value.
fn has_no_other_value(others: &[Label], label: &Label) -> bool
    ensures { result ≡
        list_all (λ other. not (bytes_eq other.key label.now.key) || bytes_eq other.value label.now.value) others.now }
{
    others.iter().all(|other| {
        !other.key.is(&label.key) || other.value.as_str() == label.value.as_str()
    })
}
