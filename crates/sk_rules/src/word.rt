//! Words that a value has to be one of.

ghost use Rattle.std.specs.Prelude.{◌≡◌, ℕ, List, Option};
ghost use Rattle.sk_rules.specs.Words as spec;

use sk_msg::{LabelKind, LinChecksum, LinMode, LinRole, ServiceKind};

/// A choice that a word makes.
pub trait Word {
    // The choice of each word.
    ghost meaning: { List ℕ → Option Self };

    /// The choice that this word makes, or None where it makes none.
    fn from_word(word: &str) -> Option<Self>
        ensures { result ≡ meaning word.now };
}

impl Word for LinRole {
    ghost meaning = { spec.role_of };

    #[tactic(auto, unfolding(crate::specs::Words::role_of))]
    fn from_word(word: &str) -> Option<LinRole> {
        if word == "master" {
            Some(LinRole::Master)
        } else if word == "slave" {
            Some(LinRole::Slave)
        } else {
            None
        }
    }
}

impl Word for LinMode {
    ghost meaning = { spec.lin_mode_of };

    #[tactic(auto, unfolding(crate::specs::Words::lin_mode_of))]
    fn from_word(word: &str) -> Option<LinMode> {
        if word == "unused" {
            Some(LinMode::Unused)
        } else if word == "rx" {
            Some(LinMode::Rx)
        } else if word == "tx" {
            Some(LinMode::TxUnconditional)
        } else {
            None
        }
    }
}

impl Word for LinChecksum {
    ghost meaning = { spec.checksum_of };

    #[tactic(auto, unfolding(crate::specs::Words::checksum_of))]
    fn from_word(word: &str) -> Option<LinChecksum> {
        if word == "unknown" {
            Some(LinChecksum::Unknown)
        } else if word == "classic" {
            Some(LinChecksum::Classic)
        } else if word == "enhanced" {
            Some(LinChecksum::Enhanced)
        } else {
            None
        }
    }
}

impl Word for ServiceKind {
    ghost meaning = { spec.service_kind_of };

    #[tactic(auto, unfolding(crate::specs::Words::service_kind_of))]
    fn from_word(word: &str) -> Option<ServiceKind> {
        if word == "can" {
            Some(ServiceKind::Can)
        } else if word == "ethernet" {
            Some(ServiceKind::Ethernet)
        } else if word == "lin" {
            Some(ServiceKind::Lin)
        } else if word == "publisher" {
            Some(ServiceKind::Publisher)
        } else if word == "subscriber" {
            Some(ServiceKind::Subscriber)
        } else if word == "server" {
            Some(ServiceKind::Server)
        } else if word == "client" {
            Some(ServiceKind::Client)
        } else {
            None
        }
    }
}

impl Word for LabelKind {
    ghost meaning = { spec.label_kind_of };

    #[tactic(auto, unfolding(crate::specs::Words::label_kind_of))]
    fn from_word(word: &str) -> Option<LabelKind> {
        if word == "optional" {
            Some(LabelKind::Optional)
        } else if word == "mandatory" {
            Some(LabelKind::Mandatory)
        } else {
            None
        }
    }
}
