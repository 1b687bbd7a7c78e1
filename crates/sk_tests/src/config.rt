//! Configurations: the format on a few files. `scripts/configurations.py` has the long tables.

use crate::made::service_of;
use sk_base::Text;
use sk_config::{
    ConfigFault, Path, Warnings, apply, apply_at, config_text, is_address, json, read_config,
};
use sk_msg::{Service, ServiceKind};
use std::alloc::{AllocError, Global};
use std::process::Abort;
use std::test::Fail;

/// The lines of the warnings, each behind a newline.
fn push_lines(alloc: Global, text: &mut String, warnings: &Warnings) -> Result<(), Fail> {
    for warning in warnings.as_slice() {
        text.push('\n')?;
        text.push_str(warning.text(alloc)?.as_str())?;
    }
    Ok(())
}

/// What reading a file gives: its canonical text and its warnings, or its fault.
fn outcome(alloc: Global, file: &[u8]) -> Result<String, Fail> {
    match read_config(alloc, file) {
        Ok(read) => {
            let mut text = config_text(alloc, &read.config)?;
            push_lines(alloc, &mut text, &read.warnings)?;
            Ok(text)
        }
        Err(fault) => Ok(line(alloc, &fault)?),
    }
}

fn line(alloc: Global, fault: &ConfigFault) -> Result<String, AllocError> {
    let path = fault.path();
    let rule = fault.rule();
    format!(in alloc; "{path}: {rule}")
}

fn expect(rt: &(impl Abort + AllocGlobal), file: &str, wanted: &str) -> Result<(), Fail> {
    let got = outcome(rt.alloc(), file.as_bytes())?;
    assert_eq!(rt; got.as_str(), wanted, "{file}");
    Ok(())
}

#[test]
fn passes_over_the_logging_section(rt: HostRuntime) -> Result<(), Fail> {
    expect(
        &rt,
        r#"{"ParticipantName":"A","CanControllers":[{"Name":"C1","Network":"PT"}],"Logging":{"FlushLevel":"Off"}}"#,
        "{\"CanControllers\":[{\"Name\":\"C1\",\"Network\":\"PT\"}],\"ParticipantName\":\"A\"}\nwarning: /Logging: not used",
    )
}

#[test]
fn refuses_a_controller_without_a_name(rt: HostRuntime) -> Result<(), Fail> {
    let fault = read_config(rt.alloc(), br#"{"CanControllers":[{"Network":"PT"}]}"#)
        .err()
        .ok_or("read")?;
    let line = line(rt.alloc(), &fault)?;
    assert_eq!(rt; line.as_str(), "/CanControllers/0/Name: missing");
    let shown = fault.to_string(rt.alloc())?;
    assert_eq!(rt; shown.as_str(), "/CanControllers/0/Name: missing");
    let twice = r#"{"CanControllers":[{"Name":"C1"},{"Name":"C1"}]}"#;
    expect(&rt, twice, "/CanControllers/1/Name: double")?;
    expect(&rt, "[", ": not JSON")
}

#[test]
fn addresses(rt: HostRuntime) -> Result<(), Fail> {
    for address in ["silkit://localhost:8500", "silkit://a-b.C9:0065535"] {
        let text = Text::new(rt.alloc(), address)?;
        assert!(rt; is_address(&text), "{address}");
    }
    for rest in ["h:0", "h:65536", "h:+1", "h:", "h", ":1", "h_:1", "h:1:1"] {
        let address = format!(in rt.alloc(); "silkit://{rest}")?;
        let text = Text::new(rt.alloc(), address.as_str())?;
        assert!(rt; !is_address(&text), "{address}");
    }
    Ok(())
}

#[test]
fn not_json(rt: HostRuntime) -> Result<(), Fail> {
    // also in a value that would be passed over
    for file in [
        "",
        "{} {}",
        r#"{"x":1e400}"#,
        r#"{"x":"\ud800"}"#,
        "\u{feff}{}",
    ] {
        expect(&rt, file, ": not JSON")?;
    }
    let bytes = outcome(rt.alloc(), b"\"\xff\"")?;
    assert_eq!(rt; bytes.as_str(), ": not JSON");
    Ok(())
}

/// Numbers, lists and texts at a key.
#[test]
fn values_at_keys(rt: HostRuntime) -> Result<(), Fail> {
    let alloc = rt.alloc();
    let value = json::parse::<ConfigFault>(alloc, br#"{"a":[1,2],"b":7,"c":""}"#)?;
    let at = Path::root(alloc);
    let number = json::number_at::<ConfigFault>(alloc, &at, "b", &value, 1, 7)?;
    assert_eq!(rt; number, Some(7));
    let low = json::number_at::<ConfigFault>(alloc, &at, "b", &value, 1, 6);
    let fault = low.err().ok_or("too large")?;
    assert_eq!(rt; line(alloc, &fault)?.as_str(), "/b: bad value");
    let items = json::list_at::<ConfigFault>(alloc, &at, "a", &value, 1, 2)?;
    assert_eq!(rt; items.ok_or("no list")?.len(), 2);
    let text: Option<Text> = json::text_at::<Text, ConfigFault>(alloc, &at, "c", &value)?;
    assert!(rt; text.ok_or("no text")?.as_str().is_empty());
    Ok(())
}

fn services(alloc: Global) -> Result<Vec<Service>, Fail> {
    let mut services = Vec::new(alloc);
    for (kind, topic) in [
        (ServiceKind::Lin, "lin"),
        (ServiceKind::Can, "can"),
        (ServiceKind::Publisher, "topic"),
    ] {
        services.push(service_of(alloc, kind, topic, "m")?)?;
    }
    Ok(services)
}

#[test]
fn applies_by_kind_and_name(rt: HostRuntime) -> Result<(), Fail> {
    let file =
        br#"{"CanControllers":[{"Name":"A","Network":"n"}],"DataPublishers":[{"Name":"A","History":1}]}"#;
    let read = read_config(rt.alloc(), file)?;
    let mut services = services(rt.alloc())?;
    let warnings = apply(rt.alloc(), &read.config, &mut services)?;
    assert_eq!(rt; warnings.as_slice().len(), 0);
    assert_eq!(rt; services.len(), 3);
    for (service, (topic, history)) in services
        .iter()
        .zip([("lin", false), ("n", false), ("topic", true)])
    {
        assert_eq!(rt; service.spec.topic().as_str(), topic);
        assert_eq!(rt; service.history, history);
    }
    Ok(())
}

/// The warnings on a configuration that stands at this path and has two entries for no service.
fn warnings_at(alloc: Global, at: &Path) -> Result<Warnings, Fail> {
    let file = br#"{"CanControllers":[{"Name":"C9"}],"RpcClients":[{"Name":"A"}]}"#;
    let read = read_config(alloc, file)?;
    let mut services = services(alloc)?;
    Ok(apply_at(alloc, at, &read.config, &mut services)?)
}

#[test]
fn warns_of_an_entry_without_a_service(rt: HostRuntime) -> Result<(), Fail> {
    let warnings = warnings_at(rt.alloc(), &Path::root(rt.alloc()))?;
    let mut lines = String::new(rt.alloc());
    push_lines(rt.alloc(), &mut lines, &warnings)?;
    assert_eq!(rt;
        lines.as_str(),
        "\nwarning: /CanControllers/0: no such service\nwarning: /RpcClients/0: no such service"
    );
    Ok(())
}

/// The path of an item of a list.
fn item(alloc: Global, key: &str, index: usize) -> Result<Path, Fail> {
    Ok(
        Path::root(alloc)
            .key(alloc, key)?
            .index(alloc, index)?
            .copy(alloc)?,
    )
}

#[test]
fn warns_where_the_configuration_stands(rt: HostRuntime) -> Result<(), Fail> {
    let at = item(rt.alloc(), "config", 7)?;
    let warnings = warnings_at(rt.alloc(), &at)?.into_vec();
    assert_eq!(rt; warnings.len(), 2);
    let first = warnings.first().ok_or("none")?;
    assert!(rt; first.path.as_str() == "/config/7/CanControllers/0");
    Ok(())
}
