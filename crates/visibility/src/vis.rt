//! Who sees one synchronizer.
ghost use Rattle.std.specs.Prelude.{◌≡◌, ◌≤◌, [], OnOk, false};
ghost use Rattle.std.specs.List.{list_all};
ghost use Rattle.gd_variant.specs.Words.{has_int};
ghost use Rattle.sight_laws.specs.Sights.{is_visible as is_visible_of, is_set as is_set_of, is_set_full, is_filter_full, with_public, with_setting, with_filter};
ghost use Rattle.visibility.specs.Settings.{change_of, Makes};

use crate::setting::VisSetting;
use gd_variant::OutOfMemory;
use indexmap::IndexMap;
use scene_model::PeerList;
use sqlite_items::Items;
use std::alloc::Global;
use std::marker::Model;

/// The most filters of one synchronizer.
const MOST_FILTERS: usize = 8;

/// The most peers for which one synchronizer is set.
const MOST_PEERS_SET: usize = 4096;

/// Why a setting isn't made.
#[derive(Clone, Copy, Debug, Drop, PartialEq, Eq)]
pub enum VisNo {
    /// The peer is new and 4,096 are kept, or 8 filters are kept.
    VisFull,
    OutOfMemory,
}

/// Who sees one synchronizer: whether it is public, what was set for single peers, in the order of
/// their first settings, and its filters, oldest first.
#[derive(Drop)]
pub struct Vis {
    public: bool,
    set: IndexMap<i32, bool>,
    filters: Vec<PeerList>,
}

impl Model for Vis {
    ghost use Rattle.std.specs.Prelude.{map};
    ghost use Rattle.sight_laws.specs.Sights.{Sight};
    ghost use Rattle.visibility.specs.Settings.{kept_setting};

    ghost Value = { Sight };

    ghost view = { λ v. record { public = v.public; set = map kept_setting v.set.entries; filters = v.filters.items } };
}

fn lists(filter: &PeerList, peer: &i32) -> bool
    ensures { result ≡ has_int peer.now filter.now }
{
    filter.as_slice().contains(peer)
}

fn all_list(filters: &[PeerList], peer: &i32) -> bool
    ensures { result ≡ list_all (has_int peer.now) filters.now }
{
    filters.iter().all(|filter| lists(filter, peer))
}

impl Vis {
    /// Nothing is set yet beside whether it is public.
    pub fn new(alloc: Global, public: bool) -> Vis
        ensures { result ≡ record { public = public; set = []; filters = [] } }
    {
        Vis {
            public,
            set: IndexMap::new(alloc),
            filters: Vec::new(alloc),
        }
    }

    fn is_set(&self, peer: &i32) -> bool
        ensures { result ≡ is_set_of peer.now self.now.set }
    {
        match self.set.get(peer) {
            Some(on) => *on,
            None => false,
        }
    }

    /// Whether a peer sees it: every filter lists the peer, and it is public or set for that peer.
    pub fn is_visible(&self, peer: &i32) -> bool
        ensures { result ≡ is_visible_of self.now peer.now }
    {
        all_list(self.filters.as_slice(), peer) && (self.public || self.is_set(peer))
    }

    /// Public or not from now on.
    pub fn set_public(&mut self, on: bool)
        ensures { self.new ≡ with_public on self.old }
    {
        self.public = on;
    }

    fn is_full_for(&self, peer: &i32) -> bool
        ensures { result ≡ is_set_full peer.now self.now }
    {
        !self.set.contains_key(peer) && MOST_PEERS_SET <= self.set.len()
    }

    fn has_all_filters(&self) -> bool
        ensures { result ≡ is_filter_full self.now }
    {
        MOST_FILTERS <= self.filters.len()
    }

    /// Whether there is no room for a setting.
    pub fn is_full(&self, setting: &VisSetting) -> bool
        ensures { result ≡ (change_of setting.now).is_full self.now }
    {
        match setting {
            VisSetting::Public(_) => false,
            VisSetting::For { peer, on: _ } => self.is_full_for(peer),
            VisSetting::Filter(_) => self.has_all_filters(),
        }
    }

    fn put_for(&mut self, peer: &i32, on: bool) -> Result<(), OutOfMemory>
        ensures { OnOk result (self.new ≡ with_setting peer.now on self.old) }
    {
        self.set.insert(*peer, on)?;
        Ok(())
    }

    fn put_filter(&mut self, alloc: Global, peers: &PeerList) -> Result<(), OutOfMemory>
        ensures { OnOk result (self.new ≡ with_filter peers.now self.old) }
    {
        let filter = Items::from_slice(alloc, peers.as_slice())?;
        self.filters.push(filter)?;
        Ok(())
    }

    /// Makes a setting for which there is room. A filter's peers are copied.
    pub fn put(&mut self, alloc: Global, setting: &VisSetting) -> Result<(), OutOfMemory>
        ensures { OnOk result (self.new ≡ (change_of setting.now).change self.old) }
    {
        match setting {
            VisSetting::Public(on) => {
                self.set_public(*on);
                Ok(())
            }
            VisSetting::For { peer, on } => self.put_for(peer, *on),
            VisSetting::Filter(peers) => self.put_filter(alloc, peers),
        }
    }

    /// Makes a setting, or says that there is no room for it.
    pub fn set(&mut self, alloc: Global, setting: &VisSetting) -> Result<(), VisNo>
        ensures { Makes ((change_of setting.now).is_full self.old) ((change_of setting.now).change self.old) self.old result self.new }
    {
        if self.is_full(setting) {
            return Err(VisNo::VisFull);
        }
        match self.put(alloc, setting) {
            Ok(()) => Ok(()),
            Err(OutOfMemory) => Err(VisNo::OutOfMemory),
        }
    }

    /// A peer sees it or not from now on, unless it isn't public or a filter doesn't list the peer.
    /// A peer is kept from its first setting on.
    pub fn set_for(&mut self, peer: &i32, on: bool) -> Result<(), VisNo>
        ensures { Makes (is_set_full peer.now self.old) (with_setting peer.now on self.old) self.old result self.new }
    {
        if self.is_full_for(peer) {
            return Err(VisNo::VisFull);
        }
        match self.put_for(peer, on) {
            Ok(()) => Ok(()),
            Err(OutOfMemory) => Err(VisNo::OutOfMemory),
        }
    }

    /// One filter more: only the peers that it lists see the synchronizer.
    pub fn add_filter(&mut self, alloc: Global, peers: &PeerList) -> Result<(), VisNo>
        ensures { Makes (is_filter_full self.old) (with_filter peers.now self.old) self.old result self.new }
    {
        if self.has_all_filters() {
            return Err(VisNo::VisFull);
        }
        match self.put_filter(alloc, peers) {
            Ok(()) => Ok(()),
            Err(OutOfMemory) => Err(VisNo::OutOfMemory),
        }
    }
}
