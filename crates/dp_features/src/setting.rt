//! What a feature can be set to.
ghost use Rattle.std.specs.Prelude.{◌≡◌, ◌≤◌, IfSome};
ghost use Rattle.dp_features.specs.Features as spec;

use crate::feature::Feature;
use dp_bytes::decimal;
use std::marker::Model;

/// A feature that can be set, and the number of a value that it can have. It is in the feature's
/// range; the one encoding that there is has the number 0.
#[derive(Clone, Copy, Debug)]
pub struct Setting {
    pub(crate) feature: Feature,
    pub(crate) number: u32,
}

impl Model for Setting {
    ghost use Rattle.std.specs.Prelude.{ℕ};
    ghost use Rattle.dp_features.specs.declared.feature.Feature.{Feature};
    ghost use Rattle.dp_features.specs.Features.{IsInRange};

    ghost Value = { Feature × ℕ };

    ghost view = { λ s. (s.feature, s.number) };

    ghost inverse = { λ v. record { feature = v.0; number = v.1 } };

    ghost invariant = { λ s. IsInRange s.feature s.number };
}

/// The number of a decimal in this range.
fn number_in(value: &[u8], range: (u64, u64)) -> Option<u64>
    ensures value { result ≡ spec.number_in value.now range }
    ensures range { IfSome result (λ n. (range.0 ≤ n) × (n ≤ range.1)) }
{
    let number = decimal(value, range.1)?;
    if range.0 <= number {
        Some(number)
    } else {
        None
    }
}

/// The number of a value that a feature can be set to.
#[tactic(auto, using(crate::proofs::Ranges::in_range))]
fn number_of(feature: Feature, value: &[u8]) -> Option<u64>
    ensures value { result ≡ spec.number_of feature value.now }
    ensures bound { IfSome result (λ n. n ≤ spec.shown_limit) }
    ensures range { IfSome result (spec.IsInRange feature) }
{
    if feature == Feature::Encoding {
        return if value == b"iso-8859-1".as_slice() {
            Some(0)
        } else {
            None
        };
    }
    number_in(value, feature.range()?)
}

impl Feature {
    /// The setting of this feature to a value, where it can have the value. Takes no memory.
    pub fn setting(self, value: &[u8]) -> Option<Setting>
        ensures { result ≡ spec.setting_of self value.now }
    {
        let number = number_of(self, value)?;
        Some(Setting {
            feature: self,
            number: number as u32,
        })
    }
}

impl Setting {
    /// The setting of the feature of this name to a value, where there is such a feature and it can
    /// have the value. Takes no memory.
    pub fn of(name: &[u8], value: &[u8]) -> Option<Setting>
        ensures { result ≡ spec.setting_named name.now value.now }
    {
        Feature::of(name)?.setting(value)
    }
}
