//! Properties of every act, by the definitions alone. No program calls these.

ghost use Rattle.std.specs.Prelude.{◌≡◌, ◌↔◌};
ghost use Rattle.audit_model.specs.declared.rule.Rule.{Rule};
ghost use Rattle.audit_rules.specs.Allocation.{Change};
ghost use Rattle.audit_rules.specs.Answer.{MayAnswer, Answers, Case};
ghost use Rattle.audit_rules.specs.Check.{AllHold};
ghost use Rattle.audit_rules.specs.FirstRule.{FirstRule, checks_of};
ghost use Rattle.audit_rules.specs.Keys.{KeyFor, AgreeOn, with_keys};
ghost use Rattle.audit_rules.specs.Said.{change_in};
ghost use Rattle.audit_rules.specs.Situation.{Situation};
ghost use Rattle.audit_rules.specs.Values.{AreBytes};

/// The checks of an act all hold exactly if the server may act so. If one of them fails, the server
/// may not.
pub fn no_rule_fails_where_it_may_answer()
    ensures exact { (x : Situation) → AreBytes x.arrives.payload → AreBytes x.leaves.payload → AllHold (checks_of x) ↔ ((change : Change) × MayAnswer x change) }
    ensures fails { (x : Situation) → AreBytes x.arrives.payload → AreBytes x.leaves.payload →
        (rule : Rule) → FirstRule x rule → (change : Change) → MayAnswer x change → ⊥ }
{}

/// The first rule that fails is unique.
pub fn one_first_rule()
    ensures { (x : Situation) (one other : Rule) → FirstRule x one → FirstRule x other → one ≡ other }
{}

/// An act is of at most one of the eleven cases, and changes the table in one way.
pub fn one_answer()
    ensures case { (x : Situation) → AreBytes x.arrives.payload → AreBytes x.leaves.payload →
        (one other : Case) (c d : Change) → Answers one x c → Answers other x d → one ≡ other }
    ensures change { (x : Situation) (one other : Case) (c d : Change) → Answers one x c → Answers other x d → c ≡ d }
{}

/// If the server may act with a change, it is the one that the departure says.
pub fn change_is_said()
    ensures { (x : Situation) (change : Change) → MayAnswer x change → change ≡ change_in x }
{}

/// An act depends on the keys of the user and the realm that its request names, and on no others.
pub fn keys_that_matter()
    ensures may { (x : Situation) (key_for : KeyFor) → AgreeOn x.key_for key_for x.arrives.payload →
        (change : Change) → MayAnswer x change ↔ MayAnswer (with_keys key_for x) change }
    ensures said { (x : Situation) (key_for : KeyFor) → change_in x ≡ change_in (with_keys key_for x) }
    ensures first { (x : Situation) (key_for : KeyFor) → AgreeOn x.key_for key_for x.arrives.payload →
        (rule : Rule) → FirstRule x rule ↔ FirstRule (with_keys key_for x) rule }
{}
