//! Laws of scenarios, each stated on a function that does nothing.

ghost use Rattle.std.specs.Prelude.{◌≡◌, ◌+◌, ◌<◌, ◌∷◌, ◌++◌, ℕ, List, true, false, Ok, Err};
ghost use Rattle.std.specs.List.{list_any};
ghost use Rattle.sspi_scenario.specs.declared.purpose.Purpose.{Purpose};
ghost use Rattle.sspi_scenario.specs.declared.scenario.Scenario.{Scenario};
ghost use Rattle.sspi_scenario.specs.Lines.{lines_of, is_line_feed, is_skipped};
ghost use Rattle.sspi_scenario.specs.Faults.{Told, keys_of, lines_from, told_in};
ghost use Rattle.sspi_scenario.specs.Held.{HoldsValues};
ghost use Rattle.sspi_scenario.specs.Keys.{is_excluded};
ghost use Rattle.sspi_scenario.specs.Scenario.{is_readable, scenario_of};

/// A comment or an empty line before a text changes nothing but the numbers of its lines.
pub fn skipped_lines_are_only_counted()
    ensures scenario { (purpose : Purpose) (line text : List ℕ) → is_skipped line ≡ true →
        list_any is_line_feed line ≡ false
        → is_readable (line ++ 10 ∷ text) ≡ true
        → (scenario : Scenario) → scenario_of purpose text ≡ Ok scenario →
        scenario_of purpose (line ++ 10 ∷ text) ≡ Ok scenario }
    ensures fault { (purpose : Purpose) (line text : List ℕ) → is_skipped line ≡ true →
        list_any is_line_feed line ≡ false
        → is_readable (line ++ 10 ∷ text) ≡ true
        → (number : ℕ) → 0 < number → scenario_of purpose text ≡ Err number →
        scenario_of purpose (line ++ 10 ∷ text) ≡ Err (number + 1) }
{}

/// The first faulty line of a text remains the first, whatever lines follow.
pub fn a_fault_stays_whatever_follows()
    ensures { (purpose : Purpose) (text more : List ℕ) (number : ℕ) → 0 < number →
        scenario_of purpose text ≡ Err number
        → is_readable (text ++ 10 ∷ more) ≡ true →
        scenario_of purpose (text ++ 10 ∷ more) ≡ Err number }
{}

/// In a text that is a scenario, no line is excluded by an earlier one. A key that may not be
/// repeated occurs at most once, and `accounts` never together with `account`.
pub fn lines_of_a_scenario_stand_together()
    ensures { (purpose : Purpose) (text : List ℕ) (scenario : Scenario) (before : List Told)
        (told : Told) (after : List Told)
        → scenario_of purpose text ≡ Ok scenario →
        told_in (lines_from purpose 1 (lines_of text)) ≡ before ++ told ∷ after
        → is_excluded (keys_of before) told.key ≡ false }
{}

/// The values of a scenario are as their types say, defaults included. Its user is a name, and its
/// password a text. The versions have 32 bits, the nonce and a ticket 32 bytes, the challenge 8.
pub fn values_are_as_their_types_say()
    ensures { (purpose : Purpose) (text : List ℕ) (scenario : Scenario) →
        scenario_of purpose text ≡ Ok scenario → HoldsValues scenario }
{}
