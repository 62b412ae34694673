// The blocks that a search has met and not opened, as a binary heap. Each has a key, by which the least is taken, and a tag, which says
// what it is. Above the place i stands (i - 1) / 2. A `Frontier` owns the two arrays of its heap; the functions `push` and `take_least` work
// on two arrays of the caller.
#![tactic(auto)]

ghost use Rattle.std.specs.Prelude.{suc, ◌/◌, ◌≤◌, ◌<◌, ◌≡◌, List, [], ◌∷◌, ◌++◌, length, drop};
ghost use Rattle.frontier.specs.declared.Entry.{Entry};
ghost use Rattle.frontier.specs.Entries.{Heap, queued, Pushed, Taken, PushedInArrays, TakenFromArrays};
ghost use Rattle.frontier.specs.Holes.{Lesser, Sifted};

use std::marker::Model;

#[derive(Clone, Copy)]
pub struct Entry {
    pub key: u64,
    pub tag: u32,
}

// At most so many entries, from the first place on. In one array of entries each would take 16 bytes, for 12 here.
#[derive(Drop)]
pub struct Frontier<const N: usize> {
    keys: [u64; N],
    count: usize,
    tags: [u32; N],
}

// Clauses see the entries, the last of them first.
impl<const N: usize> Model for Frontier<N> {
    ghost Value = { List Entry };

    ghost view = { λ f. queued f.keys f.tags f.count };

    ghost invariant = { λ f. (f.count ≤ N) × Heap f.keys f.count };
}

impl<const N: usize> Frontier<N> {
    // One entry alone.
    pub fn starting_at(first: Entry) -> Self
        requires { 1 ≤ N }
        ensures { result ≡ first ∷ [] }
    {
        let mut frontier = Frontier {
            keys: [0u64; N],
            count: 1,
            tags: [0u32; N],
        };
        frontier.keys[0] = first.key;
        frontier.tags[0] = first.tag;
        frontier
    }

    pub fn empty() -> Self
        ensures { result ≡ [] }
    {
        Frontier {
            keys: [0u64; N],
            count: 0,
            tags: [0u32; N],
        }
    }

    // The entries of another, in the place of those here. A frontier returned would be moved, with all its places.
    pub fn copy_from<const M: usize>(&mut self, other: &Frontier<M>)
        requires { M ≤ N }
        ensures { self.new ≡ other.now }
    {
        copy_front(&other.keys, &mut self.keys);
        copy_front(&other.tags, &mut self.tags);
        self.count = other.count;
    }

    pub fn len(&self) -> usize
        ensures same { result ≡ length self.now }
        ensures within { length self.now ≤ N }
    {
        self.count
    }

    pub fn push(&mut self, entry: Entry)
        requires { length self.old < N }
        ensures { Pushed self.old self.new entry }
    {
        let count = self.count;
        let Entry { key, tag } = entry;
        push(&mut self.keys, &mut self.tags, count, key, tag);
        self.count = count + 1;
    }

    // The entry of the lowest key is taken out.
    pub fn take_least(&mut self) -> Entry
        requires { 1 ≤ length self.old }
        ensures { Taken self.old self.new result }
    {
        let count = self.count;
        let least = take_least(&mut self.keys, &mut self.tags, count);
        self.count = count - 1;
        least
    }
}

// All of these, into the first places there.
fn copy_front<T: Copy>(from: &[T], to: &mut [T])
    requires { length from.now ≤ length to.old }
    ensures { to.new ≡ from.now ++ drop (length from.now) to.old }
{
    to[..from.len()].copy_from_slice(from);
}

// Adds an entry to a heap of `count` entries.
pub fn push(keys: &mut [u64], tags: &mut [u32], count: usize, key: u64, tag: u32)
    requires { (count < length keys.old) × (count < length tags.old) × Heap keys.old count }
    ensures { PushedInArrays keys.old tags.old keys.new tags.new count key tag }
{
    let i = sift_up(keys, tags, count, key);
    keys[i] = key;
    tags[i] = tag;
}

// Takes the entry of the lowest key out of a heap of `count` entries.
pub fn take_least(keys: &mut [u64], tags: &mut [u32], count: usize) -> Entry
    requires { (1 ≤ count) × (count ≤ length keys.old) × (count ≤ length tags.old) × Heap keys.old count }
    ensures { TakenFromArrays keys.old tags.old keys.new tags.new count result }
{
    let least = Entry {
        key: keys[0],
        tag: tags[0],
    };
    let last = count - 1;
    // the last entry goes where the least stood, unless it is that one
    if 0 < last {
        let key = keys[last];
        let tag = tags[last];
        let i = sift_down(keys, tags, last, key);
        keys[i] = key;
        tags[i] = tag;
    }
    least
}

// The place for a key among so many entries and one more: the entries of higher keys on the way up from the last place move down.
fn sift_up(keys: &mut [u64], tags: &mut [u32], count: usize, key: u64) -> usize
    requires { (count < length keys.old) × (count < length tags.old) × Heap keys.old count }
    ensures { Sifted keys.old tags.old count keys.new tags.new (suc count) key result }
{
    let mut i = count;
    while 0 < i {
        let above = (i - 1) / 2;
        let other = keys[above];
        if other <= key {
            return i;
        }
        keys[i] = other;
        tags[i] = tags[above];
        i = above;
    }
    i
}

// The place for a key among so many entries without the first: the entries of lower keys on the way down from there move up.
fn sift_down(keys: &mut [u64], tags: &mut [u32], count: usize, key: u64) -> usize
    requires { (1 ≤ count) × (count ≤ length keys.old) × (count ≤ length tags.old) × Heap keys.old count }
    ensures { Sifted keys.old tags.old 0 keys.new tags.new count key result }
{
    let mut i = 0;
    // the places before the half have an entry below them
    while i < count / 2 {
        let child = lesser_child(keys, count, i);
        let other = keys[child];
        if key <= other {
            return i;
        }
        keys[i] = other;
        tags[i] = tags[child];
        i = child;
    }
    i
}

// Of the one or two entries right below the place i, the one of the lower key.
fn lesser_child(keys: &[u64], count: usize, i: usize) -> usize
    requires { (i < count / 2) × (count ≤ length keys.now) }
    ensures { Lesser keys.now count i result }
{
    let left = 2 * i + 1;
    let right = left + 1;
    if right < count && keys[right] < keys[left] {
        right
    } else {
        left
    }
}
