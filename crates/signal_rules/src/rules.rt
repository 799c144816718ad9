//! Rules, and what they ask for.
ghost use Rattle.std.specs.Prelude.{◌≡◌, ◌+◌, ◌<◌, ◌≤◌, true, IfOk, OnOk, OnErr};
ghost use Rattle.std.specs.declared.cmp.Ordering.TheVariants.{Equal};

use rooms_val::{Mem, Steps};
use std::alloc::Global;
use std::sync::ledger::Ledger;

/// What [`Rules::ask`] returns: the key whose value the rule needs first, or the value that the rule
/// comes to.
#[derive(Drop)]
pub enum Ask<K, V> {
    Need(K),
    Done(V),
}

/// Keys, their values, and the rules by which keys are computed.
pub trait Rules {
    ghost use Rattle.signal_rules.specs.Meaning.{Meaning, IsLawful};

    type Key: Ord + Drop;

    type Value: Eq + Drop;

    ghost meaning: { Self → Meaning Self.Key Self.Value };

    /// The rank of a key: 0 for an atom.
    fn rank(&self, key: &Self::Key) -> u8
        ensures { result ≡ (meaning self.now).rank key.now };

    /// The value of an atom that was never set.
    ///
    /// # Errors
    ///
    /// Memory was refused.
    fn blank(&self, alloc: Global, key: &Self::Key) -> Mem<Self::Value>
        ensures { IfOk result (λ v. v ≡ (meaning self.now).blank key.now) };

    /// What a key above rank 0 asks for, once it has the values `got` of the keys that it asked for
    /// so far. It takes one step.
    ///
    /// # Errors
    ///
    /// Memory was refused.
    fn ask<L: Ledger>(
        &self,
        alloc: Global,
        key: &Self::Key,
        got: &[Self::Value],
        steps: &mut Steps<L>,
    ) -> Mem<Ask<Self::Key, Self::Value>>
        requires { 0 < (meaning self.now).rank key.now }
        ensures answer { IfOk result (λ a. a ≡ (meaning self.now).ask key.now got.now) }
        ensures ticked { OnOk result (steps.new ≡ steps.old + 1) }
        ensures untold { OnErr result (steps.new ≤ steps.old + 1) };

    /// An equal key.
    ///
    /// # Errors
    ///
    /// Memory was refused.
    fn copy_key(&self, alloc: Global, key: &Self::Key) -> Mem<Self::Key>
        ensures { IfOk result (λ k. k ≡ key.now) };

    /// An equal value.
    ///
    /// # Errors
    ///
    /// Memory was refused.
    fn copy_value(&self, alloc: Global, value: &Self::Value) -> Mem<Self::Value>
        ensures { IfOk result (λ v. v ≡ value.now) };

    // Laws: a run asks for lower ranks alone and ends; keys that compare as equal are the same, and
    // so are values.
    ghost lawful: { (rules : Self) → IsLawful (meaning rules) };

    ghost same_keys: { (a b : Self.Key) → Self.Key.cmp a b ≡ Equal → a ≡ b };

    ghost same_values: { (a b : Self.Value) → Self.Value.eq a b ≡ true → a ≡ b };
}
