//! A job that is being read.

use flu_model::{Depend, Family, Kind, List, NameList, Source, TagRef, Unit};

/// The job as far as its declarations were processed, with the numbers of the kinds whose `on` was met, how many itags its sources
/// have, and for the families and the kinds that were met the lists that name their keys and their items.
#[derive(Drop)]
pub struct Draft {
    pub lists: Vec<NameList>,
    pub family_lists: Vec<Option<u32>>,
    pub kind_lists: Vec<Option<u32>>,
    pub kinds: Vec<Kind>,
    pub given: Vec<u32>,
    pub depends: Vec<Depend>,
    pub sources: Vec<Source>,
    pub itags: u64,
}

/// The tags that a source has listed so far, and how many itags the sources have so far.
#[derive(Drop)]
pub struct TagList {
    pub tags: Vec<TagRef>,
    pub itags: u64,
}

/// The parts of a job.
#[derive(Drop)]
pub struct JobParts {
    pub version: u32,
    pub ties: u32,
    pub iso: Option<Unit>,
    pub lists: List<NameList>,
    pub families: List<Family>,
    pub kinds: List<Kind>,
    pub depends: List<Depend>,
    pub sources: List<Source>,
}
