// The type and the feature that cases speak of.
use crate::words::{Halt, text};
use gm_ecql::{FilterFault, read};
use gm_feature::Feature;
use gm_filter::Filter;
use gm_rows::{RowFault, read_row};
use gm_types::{FeatureType, SpecFault, read_spec};
use std::alloc::Global;

/// What the last cases `type` and `row` gave.
#[derive(Debug, Drop)]
pub struct Held {
    of: Option<FeatureType>,
    feature: Option<Feature>,
}

impl Held {
    pub fn new() -> Held {
        Held {
            of: None,
            feature: None,
        }
    }

    /// Holds a type from then on, and no feature.
    pub fn hold_type(&mut self, alloc: Global, spec: &str) -> Result<String, Halt> {
        self.feature = None;
        self.of = Some(feature_type(alloc, spec)?);
        text(alloc, "held")
    }

    /// Holds the feature of a row from then on.
    pub fn hold_row(&mut self, alloc: Global, row: &str) -> Result<String, Halt> {
        self.feature = Some(feature(alloc, self.of()?, row)?);
        text(alloc, "held")
    }

    pub fn of(&self) -> Result<&FeatureType, Halt> {
        match &self.of {
            Some(of) => Ok(of),
            None => Err(Halt::Form),
        }
    }

    pub fn feature(&self) -> Result<&Feature, Halt> {
        match &self.feature {
            Some(feature) => Ok(feature),
            None => Err(Halt::Form),
        }
    }
}

#[tactic(auto, unfolding(gm_types::specs::Words::is_name))]
fn feature_type(alloc: Global, spec: &str) -> Result<FeatureType, Halt> {
    match read_spec(alloc, b"t", 0, spec.as_bytes()) {
        Ok(of) => Ok(of),
        Err(SpecFault::NoMemory) => Err(Halt::NoMemory),
        Err(_) => Err(Halt::Form),
    }
}

fn feature(alloc: Global, of: &FeatureType, row: &str) -> Result<Feature, Halt> {
    match read_row(alloc, of, row.as_bytes()) {
        Ok(feature) => Ok(feature),
        Err(RowFault::NoMemory) => Err(Halt::NoMemory),
        Err(_) => Err(Halt::Form),
    }
}

/// The filter of a text in ECQL.
pub fn filter(alloc: Global, of: &FeatureType, text: &str) -> Result<Filter, Halt> {
    match read(alloc, of, text.as_bytes()) {
        Ok(filter) => Ok(filter),
        Err(FilterFault::NoMemory) => Err(Halt::NoMemory),
        Err(_) => Err(Halt::Form),
    }
}
