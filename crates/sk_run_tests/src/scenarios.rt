//! Scenarios as users write them.

/// A publishes a number each 2 ms, and counts it up. B looks each 3 ms at what came.
pub const COUNTER: &str = r#"{
  "duration": 7000000,
  "participants": [
    {
      "name": "A",
      "step": 2000000,
      "services": [{"name": "P", "kind": "publisher", "topic": "T"}],
      "vars": {"x": 0},
      "script": [
        {"every": 2000000, "do": [{"publish": "P", "append": "x"}, {"add": "x", "by": 1}]}
      ]
    },
    {
      "name": "B",
      "step": 3000000,
      "services": [{"name": "S", "kind": "subscriber", "topic": "T"}]
    }
  ]
}
"#;

/// Engine sends a CAN frame each 1 ms. Gateway is on the same network, and publishes each 5 ms the number that
/// it saw last. Display looks at that each 20 ms. Their configurations have sections that aren't used.
pub const GATEWAY: &str = r#"{
  "duration": 1000000000,
  "participants": [
    {
      "name": "Engine",
      "step": 1000000,
      "services": [{"kind": "can", "name": "C1", "network": "PT"}],
      "config": {
        "Logging": {"FlushLevel": "Off"},
        "HealthCheck": {"SoftResponseTimeout": 500},
        "Middleware": {"RegistryUri": "silkit://localhost:8500"}
      },
      "vars": {"rpm": 800},
      "ready": [{"can_start": "C1"}],
      "script": [
        {"every": 1000000, "do": [{"can_send": "C1", "id": 291, "append": "rpm"}, {"add": "rpm", "by": 1}]}
      ]
    },
    {
      "name": "Gateway",
      "step": 5000000,
      "services": [
        {"kind": "can", "name": "C1", "network": "PT"},
        {"kind": "publisher", "name": "Speed", "topic": "speed"}
      ],
      "config": {
        "Logging": {"FlushLevel": "Off"},
        "HealthCheck": {"SoftResponseTimeout": 500},
        "Middleware": {"RegistryUri": "silkit://localhost:8500"}
      },
      "vars": {"speed": 0},
      "ready": [{"can_start": "C1"}],
      "script": [
        {"on": "C1", "do": [{"take": "speed"}]},
        {"every": 5000000, "do": [{"publish": "Speed", "append": "speed"}]}
      ]
    },
    {
      "name": "Display",
      "step": 20000000,
      "services": [{"kind": "subscriber", "name": "Speed", "topic": "speed"}],
      "config": {
        "Logging": {"FlushLevel": "Off"},
        "HealthCheck": {"SoftResponseTimeout": 500},
        "Middleware": {"RegistryUri": "silkit://localhost:8500"}
      },
      "vars": {"shown": 0},
      "script": [{"on": "Speed", "do": [{"take": "shown"}]}]
    }
  ]
}
"#;

/// A stops in its step at 2 ms, long before the end, and all others with it.
pub const STOP: &str = r#"{
  "duration": 20000000,
  "participants": [
    {
      "name": "A",
      "step": 2000000,
      "script": [{"at": 2000000, "do": [{"stop": true}]}]
    },
    {"name": "B", "step": 3000000},
    {"name": "C", "step": 4000000}
  ]
}
"#;

/// As the counter, but B reports an error in its step at 3 ms, and all are aborted.
pub const ERROR: &str = r#"{
  "duration": 7000000,
  "participants": [
    {
      "name": "A",
      "step": 2000000,
      "services": [{"name": "P", "kind": "publisher", "topic": "T"}],
      "vars": {"x": 0},
      "script": [
        {"every": 2000000, "do": [{"publish": "P", "append": "x"}, {"add": "x", "by": 1}]}
      ]
    },
    {
      "name": "B",
      "step": 3000000,
      "services": [{"name": "S", "kind": "subscriber", "topic": "T"}],
      "script": [{"at": 3000000, "do": [{"error": true}]}]
    }
  ]
}
"#;
