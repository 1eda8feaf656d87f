//! What a search may keep of what it found.

ghost use Rattle.std.specs.Prelude.{◌≡◌, ◌↔◌, ◌⊎◌, ◌<◌, ◌≤◌, [], Err, IfOk, IfSome, codes};
ghost use Rattle.std.specs.NonZero.{non_zero_usize_get};
ghost use Rattle.lru.specs.LruCache.{lru_cache};
ghost use Rattle.mate_search.specs.declared.memo.MemoFault.TheVariants.{BadSize, NoMemory};
ghost use Rattle.mate_search.specs.inside.SideOccupancy.{IsOccupancyOf};
ghost use Rattle.mate_search.specs.inside.MemoEntries.{IsTrueOf};
ghost use Rattle.mate_search.specs.Memos.{max_large_entries, memo_fault_name};
ghost use Rattle.mate_search.specs.Wins.{lost};

use crate::killers::Killers;
use crate::memo_entries::Entry;
use crate::peers::Peers;
use crate::recent_positions::RecentPositions;
use crate::reply_table::{ReplyTable, TablePlace};
use crate::side_occupancy::SideOccupancy;
use chess_board::{Move, Position, equal_reads};
use lru::LruCache;
use std::alloc::{AllocError, Global};
use std::marker::Model;
use std::mem::swap;
use std::num::NonZeroUsize;
use thiserror::Error;

/// The most entries of a large memo.
pub const MAX_LARGE_ENTRIES: usize = 268_435_456;

/// Up to how many entries a memo is small.
const FEW_ENTRIES: usize = 65_536;

/// What a search found about the positions that it met last, at most as many as there is room for; what it found about positions with the
/// defender to move, a quarter as many at most; and the replies that refuted last. Each entry is true and each reply is tried, so no
/// outcome depends on what is kept. Where memory is refused, it makes do with what it has, and asks for more now and then. Contracts see
/// how many entries there are, and the room.
#[derive(Drop)]
pub struct Memo {
    /// Its capacity is the room, but where memory was refused.
    cache: LruCache<Position, Entry>,
    room: usize,
    /// After how many entries more it is asked again for memory that was refused; 0 where none was.
    waiting: usize,
    /// Which positions the cache may hold: to look for one that it does not costs more than to ask this.
    recent: RecentPositions,
    /// What was found of positions with the defender to move.
    replies: ReplyTable,
    killers: Killers,
    /// Whom it tells what is kept, and from whom it hears.
    peers: Peers,
}

impl Model for Memo {
    ghost use Rattle.std.specs.Prelude.{length};
    ghost use Rattle.mate_search.specs.inside.MemoEntries.{IsTrueMemo};
    ghost use Rattle.mate_search.specs.Memos.{MemoValue};

    ghost Value = { MemoValue };

    ghost view = { λ memo. record { kept = length memo.cache.entries; room = memo.room } };

    ghost invariant = { λ memo. IsTrueMemo memo.cache.entries memo.cache.cap memo.room memo.waiting };
}

/// Why there is no memo.
#[derive(Clone, Copy, Debug, PartialEq, Eq, Error)]
pub enum MemoFault {
    /// The number of entries is not one of 1 to 65,536, or of a large memo to 268,435,456.
    #[error("BadSize")]
    BadSize,
    /// Memory was refused.
    #[error("NoMemory")]
    NoMemory,
}

impl MemoFault {
    /// The fault's name.
    pub fn code(&self) -> &'static str
        ensures { result.now ≡ memo_fault_name self.now }
    {
        match self {
            MemoFault::BadSize => "BadSize",
            MemoFault::NoMemory => "NoMemory",
        }
    }
}

/// How many entries more are met at least before memory that was refused is asked for again.
const LEAST_WAITING: usize = 16;

/// How much of what its peers told it keeps at once, at most.
const MOST_HEARD: usize = 64;

/// As many as there are where there may be more, and half as many where there are as many as there may be.
fn fewer(held: usize, most: usize) -> usize
    ensures { result ≤ held }
{
    if held < most { held } else { held / 2 }
}

/// A cache with room for so many entries. Where they are few its index is asked for beforehand, else it grows with them.
fn cache_for(alloc: Global, size: NonZeroUsize) -> Result<LruCache<Position, Entry>, AllocError>
    ensures { IfOk result (λ cache. cache ≡ lru_cache [] (non_zero_usize_get size)) }
{
    if size.get() <= FEW_ENTRIES {
        LruCache::new(alloc, size)
    } else {
        LruCache::sparse(alloc, size)
    }
}

impl Memo {
    /// An empty memo with room for so many entries, 1 to 65,536.
    pub fn new(alloc: Global, entries: usize) -> Result<Memo, MemoFault>
        ensures ok { IfOk result (λ _. (1 ≤ entries) × (entries ≤ 65536)) }
        ensures empty { IfOk result (λ memo. memo.kept ≡ 0) }
        ensures room { IfOk result (λ memo. memo.room ≡ entries) }
        ensures bad_size { (result ≡ Err BadSize) ↔ ((entries ≡ 0) ⊎ (65536 < entries)) }
        ensures no_memory { result ≡ Err NoMemory → (1 ≤ entries) × (entries ≤ 65536) }
    {
        if entries > 65_536 {
            return Err(MemoFault::BadSize);
        }
        Memo::large(alloc, entries)
    }

    /// The same with room for 1 to 268,435,456. What more than 65,536 entries take is asked for as they come.
    pub fn large(alloc: Global, entries: usize) -> Result<Memo, MemoFault>
        ensures ok { IfOk result (λ _. (1 ≤ entries) × (entries ≤ max_large_entries)) }
        ensures empty { IfOk result (λ memo. memo.kept ≡ 0) }
        ensures room { IfOk result (λ memo. memo.room ≡ entries) }
        ensures bad_size { (result ≡ Err BadSize) ↔ ((entries ≡ 0) ⊎ (max_large_entries < entries)) }
        ensures no_memory { result ≡ Err NoMemory → (1 ≤ entries) × (entries ≤ max_large_entries) }
    {
        if entries > MAX_LARGE_ENTRIES {
            return Err(MemoFault::BadSize);
        }
        let Some(size) = NonZeroUsize::new(entries) else {
            return Err(MemoFault::BadSize);
        };
        let recent = RecentPositions::new(alloc, entries);
        let replies = ReplyTable::none(alloc, entries);
        match cache_for(alloc, size) {
            Ok(cache) => Ok(Memo {
                cache,
                room: entries,
                waiting: 0,
                recent,
                replies,
                killers: Killers::none(),
                peers: Peers::none(alloc),
            }),
            Err(_) => Err(MemoFault::NoMemory),
        }
    }

    /// How many entries are kept, which are never more than there is room for.
    pub fn len(&self) -> usize
        ensures kept { result ≡ self.now.kept }
        ensures within { result ≤ self.now.room }
    {
        self.cache.len()
    }

    /// How many entries there is room for.
    pub fn room(&self) -> usize
        ensures { result ≡ self.now.room }
    {
        self.room
    }

    /// Asks again for memory that was refused: where a problem is begun, or as many entries were met as it has.
    pub(crate) fn ask_again(&mut self)
        ensures { self.new ≡ self.old }
    {
        self.waiting = 0;
        if let Some(room) = NonZeroUsize::new(self.room) {
            self.cache.resize(room);
        }
    }

    /// Makes do without more memory, which was refused: from now on each entry takes the place of the one that was used least recently. Where
    /// there are as many as there may be, it was the index that wanted more, and half of them go.
    fn make_do(&mut self)
        ensures room { self.new.room ≡ self.old.room }
        ensures within { self.new.kept ≤ self.new.room }
    {
        let held = self.cache.len();
        self.waiting = held.max(LEAST_WAITING);
        if let Some(most) = NonZeroUsize::new(fewer(held, self.cache.cap().get())) {
            self.cache.resize(most);
        }
    }

    /// Whether an entry may be put: where memory was refused for the first of all, not before it is asked for again.
    #[inline(always)]
    fn may_put(&mut self) -> bool
        ensures same { self.new ≡ self.old }
        ensures within { self.new.kept ≤ self.new.room }
    {
        match self.waiting {
            0 => true,
            1 => {
                self.ask_again();
                true
            }
            more => {
                self.waiting = more - 1;
                !self.cache.is_empty()
            }
        }
    }

    /// From now on it tells these what is kept that took long to find, and keeps what it hears from them.
    pub fn join(&mut self, peers: Peers)
        ensures { self.new ≡ self.old }
    {
        self.peers = peers;
    }

    /// Exchanges what two memos hold. Each goes on with its own peers.
    pub fn exchange(&mut self, other: &mut Memo)
        ensures this { self.new ≡ other.old }
        ensures other { other.new ≡ self.old }
    {
        swap(self, other);
        swap(&mut self.peers, &mut other.peers);
    }

    /// Keeps what its peers told since it was asked about a position last.
    #[inline(always)]
    fn hear(&mut self)
        ensures room { self.new.room ≡ self.old.room }
    {
        for _ in 0..MOST_HEARD {
            let Some(learned) = self.peers.next() else {
                return;
            };
            let known = self.known(&learned.position).with_all_of(learned.known);
            self.take_in(&learned.position, known);
        }
    }

    /// What is known of a position, by its peers too, which becomes the one that was met last.
    pub(crate) fn entry(&mut self, position: &Position) -> Entry
        ensures known { IsTrueOf position.now result }
        ensures room { self.new.room ≡ self.old.room }
    {
        self.hear();
        self.known(position)
    }

    /// What is kept of a position, which becomes the one that was met last.
    fn known(&mut self, position: &Position) -> Entry
        ensures known { IsTrueOf position.now result }
        ensures room { self.new.room ≡ self.old.room }
    {
        // That this position is sound is a clause of this call.
        position.side();
        let occupancy = SideOccupancy::of(position);
        if !self.may_have(occupancy) {
            return Entry::nothing();
        }
        self.find(position, occupancy)
    }

    /// Whether something may be kept of a position whose men stand so.
    #[inline(always)]
    pub(crate) fn may_have(&self, occupancy: SideOccupancy) -> bool {
        self.recent.may_have(occupancy)
    }

    /// What is known of a position whose men stand so, which becomes the one that was met last.
    pub(crate) fn find(&mut self, position: &Position, occupancy: SideOccupancy) -> Entry
        requires { IsOccupancyOf occupancy position.now.men }
        ensures known { IsTrueOf position.now result }
        ensures room { self.new.room ≡ self.old.room }
    {
        // That two positions which `==` calls equal are one is a law of sound positions.
        equal_reads();
        // That this position is sound is a clause of this call.
        position.side();
        match self.cache.get(position) {
            Some(entry) => {
                let known = *entry;
                self.recent.mark(occupancy);
                known
            }
            None => Entry::nothing(),
        }
    }

    /// Keeps what is known of a position in place of what was kept of it, and tells its peers what takes long to find. Where memory is
    /// refused, the memo makes do with what it has.
    pub(crate) fn keep(&mut self, position: &Position, entry: Entry)
        requires { IsTrueOf position.now entry }
        ensures room { self.new.room ≡ self.old.room }
        ensures within { self.new.kept ≤ self.new.room }
    {
        self.peers.tell(position, entry);
        self.take_in(position, entry);
    }

    /// Keeps it, and tells nobody.
    fn take_in(&mut self, position: &Position, entry: Entry)
        requires { IsTrueOf position.now entry }
        ensures room { self.new.room ≡ self.old.room }
        ensures within { self.new.kept ≤ self.new.room }
    {
        if self.may_put() {
            self.put(position, entry);
        }
    }

    /// Puts an entry, unless memory is refused.
    fn put(&mut self, position: &Position, entry: Entry)
        requires { IsTrueOf position.now entry }
        ensures room { self.new.room ≡ self.old.room }
        ensures within { self.new.kept ≤ self.new.room }
    {
        // That two positions which `==` calls equal are one is a law of sound positions.
        equal_reads();
        // A put that is refused loses this entry, and no outcome depends on it.
        if self.cache.put(*position, entry).is_ok() {
            self.recent.mark(SideOccupancy::of(position));
        } else {
            self.make_do();
        }
    }

    /// Whether the defender is lost in a position with so many moves left to the attacker, where what is kept in this place tells it.
    #[inline(always)]
    pub(crate) fn judged(&self, place: TablePlace, position: &Position, moves: u8) -> Option<bool>
        ensures { IfSome result (λ is_lost. is_lost ≡ lost moves position.now) }
    {
        self.replies.judged(place, position, moves)
    }

    /// Keeps in this place whether it is. Where memory is refused, it is not kept.
    pub(crate) fn keep_judged(
        &mut self,
        place: TablePlace,
        position: &Position,
        moves: u8,
        is_lost: bool,
    )
        requires { is_lost ≡ lost moves position.now }
        ensures { self.new ≡ self.old }
    {
        self.replies.keep(place, position, moves, is_lost);
    }

    /// The two replies that refuted last with one move left to the attacker.
    pub(crate) fn killers(&self) -> (Option<Move>, Option<Move>) {
        self.killers.two()
    }

    /// Keeps a reply that refuted with one move left to the attacker.
    pub(crate) fn keep_refutation(&mut self, reply: Move)
        ensures { self.new ≡ self.old }
    {
        self.killers.keep(reply);
    }
}
