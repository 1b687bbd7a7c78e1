//! Laws of scripts: functions that do nothing, whose contracts are the laws.

ghost use Rattle.std.specs.Prelude.{◌≡◌, ℕ, List, Ok, IsTrue};
ghost use Rattle.std.specs.List.{list_all};
ghost use Rattle.serde_json.specs.Data.{Items};
ghost use Rattle.sk_rules.specs.Actions.{actions_read};
ghost use Rattle.sk_rules.specs.Places.{ScopeValue, are_own};
ghost use Rattle.sk_rules.specs.Rules.{rules_read};
ghost use Rattle.sk_rules.specs.Scripts.{RuleValue, is_action, is_rule};
ghost use Rattle.sk_rules.specs.declared.action.ScriptAction.{ScriptAction};
ghost use Rattle.sk_rules.specs.declared.place.Place.{Place};

/// Actions that were read keep the rules of their place.
pub fn actions_keep_rules()
    ensures { (scope : ScopeValue) (place : Place) (path : List ℕ) (ds : Items) (actions : List ScriptAction) →
        actions_read scope place path ds ≡ Ok actions → IsTrue (list_all (is_action scope place) actions) }
{}

/// Rules that were read keep the rules of scripts.
pub fn rules_keep_rules()
    ensures { (scope : ScopeValue) (path : List ℕ) (ds : Items) (rules : List RuleValue) →
        IsTrue (are_own scope.services) → rules_read scope path ds ≡ Ok rules → IsTrue (list_all (is_rule scope) rules) }
{}
