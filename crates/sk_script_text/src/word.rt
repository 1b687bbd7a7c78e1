//! Words for what a value may be one of. Each is read back by `Word::from_word`.

ghost use Rattle.std.specs.Prelude.{◌≡◌};
ghost use Rattle.sk_script_text.specs.Words as spec;

use sk_msg::{LabelKind, LinChecksum, LinMode, LinRole, ServiceKind};

/// What a LIN controller is.
pub fn role_word(role: LinRole) -> &'static str
    ensures { result.now ≡ spec.role_word role }
{
    match role {
        LinRole::Master => "master",
        LinRole::Slave => "slave",
    }
}

/// What a LIN controller does at a header.
pub fn mode_word(mode: LinMode) -> &'static str
    ensures { result.now ≡ spec.mode_word mode }
{
    match mode {
        LinMode::Unused => "unused",
        LinMode::Rx => "rx",
        LinMode::TxUnconditional => "tx",
    }
}

/// How a LIN checksum is made, or nothing where that is as by default.
pub fn checksum_word(checksum: LinChecksum) -> &'static str
    ensures { result.now ≡ spec.checksum_word checksum }
{
    match checksum {
        LinChecksum::Unknown => "",
        LinChecksum::Classic => "classic",
        LinChecksum::Enhanced => "enhanced",
    }
}

/// What a service is.
pub fn kind_word(kind: ServiceKind) -> &'static str
    ensures { result.now ≡ spec.kind_word kind }
{
    match kind {
        ServiceKind::Can => "can",
        ServiceKind::Ethernet => "ethernet",
        ServiceKind::Lin => "lin",
        ServiceKind::Publisher => "publisher",
        ServiceKind::Subscriber => "subscriber",
        ServiceKind::Server => "server",
        ServiceKind::Client => "client",
    }
}

/// Whether the other side needs a label.
pub fn label_word(kind: LabelKind) -> &'static str
    ensures { result.now ≡ spec.label_word kind }
{
    match kind {
        LabelKind::Optional => "optional",
        LabelKind::Mandatory => "mandatory",
    }
}
