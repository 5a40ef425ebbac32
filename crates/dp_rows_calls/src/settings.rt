//! Calls of features: the value that is reported of a feature once it is set.

use dp_features::{Feature, Features, Setting};
use dp_rows::{Memory, at_space};
use std::alloc::Global;

/// The value that is reported of the feature of a name once it is set to a value, or `none` where it cannot be set so.
pub(crate) fn told_setting(alloc: Global, input: &[u8]) -> Result<String, Memory> {
    let (name, value) = at_space(input);
    match (Feature::of(name), Setting::of(name, value)) {
        (Some(feature), Some(setting)) => {
            let told = Features::new().with(setting).value(alloc, feature)?;
            String::from_utf8_lossy(alloc, told.as_slice())
        }
        _ => String::from_str(alloc, "none"),
    }
}
