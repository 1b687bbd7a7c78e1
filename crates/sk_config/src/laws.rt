//! Laws of the format: functions that do nothing, whose contracts are the laws.

ghost use Rattle.std.specs.Prelude.{◌≡◌, ◌↔◌, ◌≢◌, Ok, Err, None, [], IsTrue, ℕ, List};
ghost use Rattle.sk_config.specs.Configs.{ConfigValue, is_config};
ghost use Rattle.sk_config.specs.Json.{json_of};
ghost use Rattle.sk_config.specs.Reading.{reading, reading_at};
ghost use Rattle.sk_config.specs.declared.fault.ConfigFault.TheVariants.{NotJson, WantOfMemory};
ghost use Rattle.sk_config.specs.Written.{config_data};

/// What is written of a configuration reads back to it without a warning, wherever in a file it
/// stands.
pub fn reads_back()
    ensures { (path : List ℕ) (config : ConfigValue) → IsTrue (is_config config) →
        reading_at path (config_data config) ≡ Ok (record { config = config; warnings = [] }) }
{}

/// Bytes are no JSON exactly where they have no JSON value, and no bytes say that memory ran out.
pub fn not_json_exactly()
    ensures no_json { (bytes : List ℕ) → (reading bytes ≡ Err NotJson) ↔ (json_of bytes ≡ None) }
    ensures no_memory { (bytes : List ℕ) → reading bytes ≢ Err WantOfMemory }
{}
