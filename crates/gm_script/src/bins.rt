// New values of the default date.
ghost use Rattle.std.specs.Prelude.{◌≡◌};
ghost use Rattle.gm_feature.specs.Feature as feature;
ghost use Rattle.gm_script.specs.Bins as spec;

use gm_calendar::{Period, bin_of};
use gm_feature::Value;
use gm_types::{FeatureType, IndexKind};

fn is_place(attribute: u16, default_date: Option<u16>) -> bool
    ensures { result ≡ spec.is_place attribute default_date }
{
    default_date == Some(attribute)
}

fn has_bin(period: Period, value: &Value) -> bool
    ensures { result ≡ feature.has_bin period value.now }
{
    match value {
        Value::Date(at) => bin_of(period, *at).is_some(),
        _ => true,
    }
}

fn has_time_index(of: &FeatureType) -> bool
    ensures { result ≡ feature.has_time_index of.now }
{
    of.has(IndexKind::Z3) || of.has(IndexKind::Xz3)
}

/// Whether an attribute may take the value where an index over time is enabled: the default date is
/// null or has a bin.
pub(crate) fn keeps_bins(of: &FeatureType, attribute: u16, value: &Value) -> bool
    ensures { result ≡ spec.keeps_bins of.now attribute value.now }
{
    !has_time_index(of) || !is_place(attribute, of.default_date()) || has_bin(of.period(), value)
}
