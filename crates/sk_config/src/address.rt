//! Addresses of a registry.

ghost use Rattle.std.specs.Prelude.{◌≡◌, List, ℕ, IsTrue};
ghost use Rattle.std.specs.List.{list_all};
ghost use Rattle.sk_config.specs.Configs as spec;

use crate::json::JsonText;
use sk_base::{Text, WantOfMemory, is_digits};
use std::alloc::Global;
use std::marker::Model;

/// What each address begins with.
const SCHEME: &str = "silkit://";

/// A text that is an address. Contracts see its bytes.
#[derive(Debug, Drop)]
pub struct Address {
    uri: Text,
}

impl Model for Address {
    ghost Value = { List ℕ };

    ghost view = { λ address. address.uri };

    ghost invariant = { λ address. IsTrue (spec.is_address address.uri) };
}

impl Address {
    /// The text.
    pub fn into_text(self) -> Text
        ensures text { result ≡ self }
        ensures rule { IsTrue (spec.is_address result) }
    {
        self.uri
    }
}

impl JsonText for Address {
    ghost is_fine = { spec.is_address };

    ghost says = { λ address. address };

    #[tactic(auto, unfolding(crate::specs::Configs::is_address))]
    fn from_text(alloc: Global, text: &str) -> Result<Option<Address>, WantOfMemory> {
        let Some(uri) = Text::from_utf8(alloc, text.as_bytes())? else {
            return Ok(None);
        };
        if !is_address(&uri) {
            return Ok(None);
        }
        Ok(Some(Address { uri }))
    }
}

/// Whether the text is an address: `silkit://HOST:PORT`, of at most 64 bytes as each text, with
/// HOST of ASCII letters, digits, `.` and `-`, at least one of them, and PORT decimal digits of a
/// number from 1 to 65,535.
pub fn is_address(text: &Text) -> bool
    ensures { result ≡ spec.is_address text.now }
{
    match text.as_str().strip_prefix(SCHEME) {
        Some(rest) => is_host_and_port(rest),
        None => false,
    }
}

fn is_host_and_port(text: &str) -> bool
    ensures { result ≡ spec.is_host_and_port text.now }
{
    match text.split_once(':') {
        Some((host, port)) => is_host(host) && is_port(port),
        None => false,
    }
}

fn is_host(host: &str) -> bool
    ensures { result ≡ spec.is_host host.now }
{
    !host.is_empty() && are_host_bytes(host.as_bytes())
}

fn are_host_bytes(host: &[u8]) -> bool
    ensures { result ≡ list_all spec.is_host_byte host.now }
{
    host.iter().all(|byte| is_host_byte(*byte))
}

fn is_host_byte(byte: u8) -> bool
    ensures { result ≡ spec.is_host_byte byte }
{
    byte.is_ascii_alphanumeric() || byte == b'.' || byte == b'-'
}

fn is_port(port: &str) -> bool
    ensures { result ≡ spec.is_port port.now }
{
    if !is_digits(port) {
        return false;
    }
    match port.parse::<u16>() {
        Ok(number) => number >= 1,
        Err(_) => false,
    }
}
