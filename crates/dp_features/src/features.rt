//! The values of features.
ghost use Rattle.std.specs.Prelude.{◌≡◌, ◌≤◌, decimal, length, IfOk};
ghost use Rattle.dp_features.specs.Features as spec;

use crate::feature::Feature;
use crate::setting::Setting;
use dp_bytes::{Bytes, Memory};
use std::alloc::Global;
use std::marker::Model;

/// The most entries of a page, if none is set.
const DEFAULT_CHILDREN: u32 = 32;

/// The most bytes of a text that are shown, if none is set.
const DEFAULT_DATA: u32 = 1024;

/// The features that are set to numbers, each within its range. `multiple_sessions` and `show_hidden`
/// are kept and change nothing else.
#[derive(Clone, Copy, Debug)]
pub struct Features {
    /// 0 or 1.
    multiple_sessions: u32,
    /// The most entries of an array on one page, from 1 to 1,048,576.
    max_children: u32,
    /// The most bytes of a text that are shown, up to 1,048,576.
    max_data: u32,
    /// How deep arrays are shown in one another, up to 32.
    max_depth: u32,
    /// 0 or 1.
    show_hidden: u32,
    /// 0 or 1.
    notify_ok: u32,
    /// 0 or 1.
    resolved_breakpoints: u32,
}

impl Model for Features {
    ghost use Rattle.dp_features.specs.Features.{AreInRange, Features};

    ghost Value = { Features };

    ghost view = { λ f. record {
      multiple_sessions = f.multiple_sessions;
      max_children = f.max_children;
      max_data = f.max_data;
      max_depth = f.max_depth;
      show_hidden = f.show_hidden;
      notify_ok = f.notify_ok;
      resolved_breakpoints = f.resolved_breakpoints;
    } };

    ghost inverse = { λ v. record {
      multiple_sessions = v.multiple_sessions;
      max_children = v.max_children;
      max_data = v.max_data;
      max_depth = v.max_depth;
      show_hidden = v.show_hidden;
      notify_ok = v.notify_ok;
      resolved_breakpoints = v.resolved_breakpoints;
    } };

    ghost invariant = { λ f. AreInRange (record {
      multiple_sessions = f.multiple_sessions;
      max_children = f.max_children;
      max_data = f.max_data;
      max_depth = f.max_depth;
      show_hidden = f.show_hidden;
      notify_ok = f.notify_ok;
      resolved_breakpoints = f.resolved_breakpoints;
    }) };
}

/// The decimal of a number.
#[tactic(auto, using(crate::proofs::Short::decimal_short))]
fn text_of(alloc: Global, number: u32) -> Result<Bytes, Memory>
    ensures value { IfOk result (λ text. text ≡ decimal number) }
    ensures short { IfOk result (λ text. length text ≤ spec.value_limit) }
{
    let digits = number.to_string(alloc)?;
    Bytes::from_slice(alloc, digits.as_bytes())
}

impl Features {
    /// What a session begins with.
    pub fn new() -> Self
        ensures { result ≡ spec.defaults }
    {
        Features {
            multiple_sessions: 0,
            max_children: DEFAULT_CHILDREN,
            max_data: DEFAULT_DATA,
            max_depth: 1,
            show_hidden: 0,
            notify_ok: 0,
            resolved_breakpoints: 0,
        }
    }

    /// The value of a feature, as it is reported.
    pub fn value(&self, alloc: Global, feature: Feature) -> Result<Bytes, Memory>
        ensures value { IfOk result (λ text. text ≡ spec.value_of self.now feature) }
        ensures short { IfOk result (λ text. length text ≤ spec.value_limit) }
    {
        match feature {
            Feature::LanguageSupportsThreads => Bytes::from_slice(alloc, b"0"),
            Feature::LanguageName => Bytes::from_slice(alloc, b"PHP"),
            Feature::LanguageVersion => Bytes::from_slice(alloc, b"8.3"),
            Feature::Encoding => Bytes::from_slice(alloc, b"iso-8859-1"),
            Feature::ProtocolVersion => Bytes::from_slice(alloc, b"1"),
            Feature::SupportsAsync => Bytes::from_slice(alloc, b"0"),
            Feature::DataEncoding => Bytes::from_slice(alloc, b"base64"),
            Feature::BreakpointLanguages => Bytes::from_slice(alloc, b"PHP"),
            Feature::BreakpointTypes => Bytes::from_slice(alloc, b"line call return conditional"),
            Feature::MultipleSessions => text_of(alloc, self.multiple_sessions),
            Feature::MaxChildren => text_of(alloc, self.max_children),
            Feature::MaxData => text_of(alloc, self.max_data),
            Feature::MaxDepth => text_of(alloc, self.max_depth),
            Feature::ShowHidden => text_of(alloc, self.show_hidden),
            Feature::NotifyOk => text_of(alloc, self.notify_ok),
            Feature::ResolvedBreakpoints => text_of(alloc, self.resolved_breakpoints),
            Feature::SupportsPostmortem => Bytes::from_slice(alloc, b"0"),
        }
    }

    /// The most entries of an array on one page. Takes no memory.
    pub fn max_children(&self) -> u32
        ensures value { result ≡ self.now.max_children }
        ensures some { 1 ≤ result }
        ensures bound { result ≤ spec.shown_limit }
    {
        self.max_children
    }

    /// The most bytes of a text that are shown. Takes no memory.
    pub fn max_data(&self) -> u32
        ensures value { result ≡ self.now.max_data }
        ensures bound { result ≤ spec.shown_limit }
    {
        self.max_data
    }

    /// How deep arrays are shown in one another. Takes no memory.
    pub fn max_depth(&self) -> u32
        ensures value { result ≡ self.now.max_depth }
        ensures bound { result ≤ spec.depth_limit }
    {
        self.max_depth
    }

    /// Whether a breakpoint on a line without code goes to the next line that has code. Takes no memory.
    pub fn resolves(&self) -> bool
        ensures { result ≡ spec.resolves self.now }
    {
        self.resolved_breakpoints == 1
    }

    /// Whether the IDE takes news that it did not ask for. Takes no memory.
    pub fn notifies(&self) -> bool
        ensures { result ≡ spec.notifies self.now }
    {
        self.notify_ok == 1
    }

    /// The features with one set. The encoding, of which there is one, stays. Takes no memory.
    pub fn with(self, setting: Setting) -> Self
        ensures { result ≡ spec.with_setting setting self }
    {
        let mut features = self;
        let number = setting.number;
        match setting.feature {
            Feature::MultipleSessions => features.multiple_sessions = number,
            Feature::MaxChildren => features.max_children = number,
            Feature::MaxData => features.max_data = number,
            Feature::MaxDepth => features.max_depth = number,
            Feature::ShowHidden => features.show_hidden = number,
            Feature::NotifyOk => features.notify_ok = number,
            Feature::ResolvedBreakpoints => features.resolved_breakpoints = number,
            _ => {}
        }
        features
    }
}
