//! The names of features, and what values they can have.
ghost use Rattle.std.specs.Prelude.{◌≡◌, ◌≤◌, IfSome};
ghost use Rattle.std.specs.List.{find};
ghost use Rattle.std.specs.Str.{bytes_eq};
ghost use Rattle.dp_features.specs.Features as spec;

/// The most entries of a page, and the most bytes of a text, that can be asked for.
const SHOWN_LIMIT: u64 = 1_048_576;

/// The most levels of arrays in one another that can be asked for.
const DEPTH_LIMIT: u64 = 32;

/// A feature of the engine: DBGp 1.0, "feature_get".
#[derive(Clone, Copy, Debug, PartialEq, Eq)]
pub enum Feature {
    LanguageSupportsThreads,
    LanguageName,
    LanguageVersion,
    Encoding,
    ProtocolVersion,
    SupportsAsync,
    DataEncoding,
    BreakpointLanguages,
    BreakpointTypes,
    MultipleSessions,
    MaxChildren,
    MaxData,
    MaxDepth,
    ShowHidden,
    NotifyOk,
    ResolvedBreakpoints,
    SupportsPostmortem,
}

const EVERY: [Feature; 17] = [
    Feature::LanguageSupportsThreads,
    Feature::LanguageName,
    Feature::LanguageVersion,
    Feature::Encoding,
    Feature::ProtocolVersion,
    Feature::SupportsAsync,
    Feature::DataEncoding,
    Feature::BreakpointLanguages,
    Feature::BreakpointTypes,
    Feature::MultipleSessions,
    Feature::MaxChildren,
    Feature::MaxData,
    Feature::MaxDepth,
    Feature::ShowHidden,
    Feature::NotifyOk,
    Feature::ResolvedBreakpoints,
    Feature::SupportsPostmortem,
];

/// The first of these features that has this name.
fn first_of(features: &[Feature], name: &[u8]) -> Option<Feature>
    ensures { result ≡ find (λ feature. bytes_eq (spec.name_of feature) name.now) features.now }
{
    for feature in features {
        if feature.name() == name {
            return Some(*feature);
        }
    }
    None
}

impl Feature {
    /// The feature of this name. Takes no memory.
    #[tactic(auto, unfolding(crate::specs::Features::feature_named))]
    pub fn of(name: &[u8]) -> Option<Feature>
        ensures { result ≡ spec.feature_named name.now }
    {
        first_of(&EVERY, name)
    }

    /// Its name. Takes no memory.
    pub fn name(self) -> &'static [u8]
        ensures { result.now ≡ spec.name_of self }
    {
        match self {
            Feature::LanguageSupportsThreads => b"language_supports_threads",
            Feature::LanguageName => b"language_name",
            Feature::LanguageVersion => b"language_version",
            Feature::Encoding => b"encoding",
            Feature::ProtocolVersion => b"protocol_version",
            Feature::SupportsAsync => b"supports_async",
            Feature::DataEncoding => b"data_encoding",
            Feature::BreakpointLanguages => b"breakpoint_languages",
            Feature::BreakpointTypes => b"breakpoint_types",
            Feature::MultipleSessions => b"multiple_sessions",
            Feature::MaxChildren => b"max_children",
            Feature::MaxData => b"max_data",
            Feature::MaxDepth => b"max_depth",
            Feature::ShowHidden => b"show_hidden",
            Feature::NotifyOk => b"notify_ok",
            Feature::ResolvedBreakpoints => b"resolved_breakpoints",
            Feature::SupportsPostmortem => b"supports_postmortem",
        }
    }

    /// The lowest and the greatest number that it can be set to.
    pub(crate) fn range(self) -> Option<(u64, u64)>
        ensures value { result ≡ spec.range_of self }
        ensures bound { IfSome result (λ range. range.1 ≤ spec.shown_limit) }
    {
        match self {
            Feature::MultipleSessions
            | Feature::ShowHidden
            | Feature::NotifyOk
            | Feature::ResolvedBreakpoints => Some((0, 1)),
            Feature::MaxChildren => Some((1, SHOWN_LIMIT)),
            Feature::MaxData => Some((0, SHOWN_LIMIT)),
            Feature::MaxDepth => Some((0, DEPTH_LIMIT)),
            _ => None,
        }
    }
}
