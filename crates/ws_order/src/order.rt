// The set as a search tree. Each member has a rank, which is its spread, and a new member is put above
// those of a lower rank, so that the tree is expected to stay shallow. No contract speaks of ranks: they
// are for speed alone.
ghost use Rattle.std.specs.Prelude.{◌≡◌, true, false, not, filter, find, is_some, [], ◌∷◌, ◌++◌, MatchOption};
ghost use Rattle.std.specs.List.{AllByRecursion};
ghost use Rattle.ws_model.specs.Due.{place};
ghost use Rattle.ws_order.specs.Orders.{has_key, IsParted, Rises};

use crate::key::{Key, Sought};
use std::alloc::Global;
use std::marker::Model;
use std::mem;
use ws_model::NoMemory;

/// Keys in their order. A contract sees them as a list.
#[cycle(order)]
#[derive(Drop)]
pub struct Order<K: Key> {
    node: Node<K>,
}

#[cycle(order)]
#[derive(Drop)]
enum Node<K: Key> {
    Leaf,
    // What stands before, the rank, the member, what stands behind.
    Fork(Box<Order<K>>, u64, K, Box<Order<K>>),
}

impl<K: Key> Model for Order<K> {
    ghost use Rattle.std.specs.Prelude.{List, length};

    ghost Value = { List K };

    ghost use Rattle.ws_order.specs.Orders.{Rises};
    ghost use Rattle.ws_order.specs.Trees.{members};

    ghost view = { λ a. members a.node };

    ghost invariant = { λ a. Rises K.before (members a.node) };

    ghost size = { length };

    ghost use Rattle.ws_order.specs.TreeFalls.{depth_le-length-members};

    ghost size_decreases = { λ a h. depth_le-length-members (record { before = K.before; same = K.same }) a.node };
}

/// Room for one more member.
#[derive(Drop)]
pub struct Room<K: Key> {
    left: Box<Order<K>>,
    right: Box<Order<K>>,
}

impl<K: Key> Room<K> {
    /// Takes memory for one more member.
    pub fn new(alloc: Global) -> Result<Room<K>, NoMemory> {
        let left = Box::new(alloc, Order::empty())?;
        let right = Box::new(alloc, Order::empty())?;
        Ok(Room { left, right })
    }
}

/// The top of a tree and its sides.
struct Sides<K: Key> {
    left: Box<Order<K>>,
    rank: u64,
    top: K,
    right: Box<Order<K>>,
}

/// The first member, its room, and the others.
struct First<K: Key> {
    member: K,
    room: Room<K>,
    others: Order<K>,
}

impl<K: Key> Order<K> {
    /// No member. It takes no memory.
    pub fn empty() -> Order<K>
        ensures { result ≡ [] }
    {
        Order { node: Node::Leaf }
    }

    /// Puts a new member in its place. It takes no memory.
    pub fn put(&mut self, new: K, room: Room<K>)
        requires { has_key K.same new self.old ≡ false }
        ensures { self.new ≡ place K.before new self.old }
    {
        let all = mem::replace(self, Order::empty());
        *self = all.with(new, new.spread(), room);
    }

    /// Takes a member out and gives its room, where it is one. It takes no memory.
    pub fn take(&mut self, member: &K) -> Option<Room<K>>
        ensures found { is_some result ≡ has_key K.same member.now self.old }
        ensures left { self.new ≡ filter (λ x. not (K.same member.now x)) self.old }
    {
        let all = mem::replace(self, Order::empty());
        let (rest, room) = all.without(member);
        *self = rest;
        room
    }

    /// Whether it is a member.
    pub fn contains(&self, member: &K) -> bool
        ensures { result ≡ has_key K.same member.now self.now }
    {
        match &self.node {
            Node::Leaf => false,
            Node::Fork(left, _, top, right) => {
                if member.is_before(top) {
                    left.contains(member)
                } else if top.is_before(member) {
                    right.contains(member)
                } else {
                    true
                }
            }
        }
    }

    /// The first member that is wanted. Those before it are passed over one by one; those behind one that
    /// is past aren't looked at.
    pub fn first<S: Sought<K>>(&self, sought: &S) -> Option<K>
        requires past { (x y : K) → S.past sought.now x ≡ true → K.before x y ≡ true → S.wanted sought.now y ≡ false }
        ensures first { result ≡ find (S.wanted sought.now) self.now }
        ensures rising { Rises K.before self.now }
    {
        // The tree is opened, so that the caller knows its order.
        let _node = &self.node;
        self.found(sought)
    }

    fn found<S: Sought<K>>(&self, sought: &S) -> Option<K>
        requires past { (x y : K) → S.past sought.now x ≡ true → K.before x y ≡ true → S.wanted sought.now y ≡ false }
        ensures { result ≡ find (S.wanted sought.now) self.now }
    {
        match &self.node {
            Node::Leaf => None,
            Node::Fork(left, _, top, right) => {
                if let Some(found) = left.found(sought) {
                    return Some(found);
                }
                if sought.is_wanted(top) {
                    return Some(*top);
                }
                if sought.is_past(top) {
                    return None;
                }
                right.found(sought)
            }
        }
    }

    fn with(self, new: K, rank: u64, room: Room<K>) -> Order<K>
        requires { has_key K.same new self ≡ false }
        ensures { result ≡ place K.before new self }
    {
        match self.opened() {
            None => Order::empty().with_on_top(new, rank, room),
            Some(
                Sides {
                    left,
                    rank: above,
                    top,
                    right,
                },
            ) => {
                if above < rank {
                    return fork(left, above, top, right).with_on_top(new, rank, room);
                }
                if new.is_before(&top) {
                    let (front, empty) = unboxed(left);
                    let front = front.with(new, rank, room);
                    fork(boxed(empty, front), above, top, right)
                } else {
                    let (behind, empty) = unboxed(right);
                    let behind = behind.with(new, rank, room);
                    fork(left, above, top, boxed(empty, behind))
                }
            }
        }
    }

    fn with_on_top(self, new: K, rank: u64, room: Room<K>) -> Order<K>
        requires { has_key K.same new self ≡ false }
        ensures { result ≡ place K.before new self }
    {
        let (low, high) = self.split(&new);
        let Room { left, right } = room;
        fork(boxed(left, low), rank, new, boxed(right, high))
    }

    /// The members before a given one, and the others.
    fn split(self, place: &K) -> (Order<K>, Order<K>)
        ensures all { self ≡ result.0 ++ result.1 }
        ensures low { AllByRecursion (λ x. K.before x place.now ≡ true) result.0 }
        ensures high { AllByRecursion (λ x. K.before x place.now ≡ false) result.1 }
        ensures rising { Rises K.before (result.0 ++ result.1) }
    {
        match self.opened() {
            None => (Order::empty(), Order::empty()),
            Some(
                Sides {
                    left,
                    rank,
                    top,
                    right,
                },
            ) => {
                if top.is_before(place) {
                    let (behind, empty) = unboxed(right);
                    let (low, high) = behind.split(place);
                    (fork(left, rank, top, boxed(empty, low)), high)
                } else {
                    let (front, empty) = unboxed(left);
                    let (low, high) = front.split(place);
                    (low, fork(boxed(empty, high), rank, top, right))
                }
            }
        }
    }

    /// The others than a given member, and its room, where it is one.
    fn without(self, member: &K) -> (Order<K>, Option<Room<K>>)
        ensures found { is_some result.1 ≡ has_key K.same member.now self }
        ensures left { result.0 ≡ filter (λ x. not (K.same member.now x)) self }
    {
        match self.opened() {
            None => (Order::empty(), None),
            Some(
                Sides {
                    left,
                    rank,
                    top,
                    right,
                },
            ) => {
                if member.is_before(&top) {
                    let (front, empty) = unboxed(left);
                    let (front, room) = front.without(member);
                    (fork(boxed(empty, front), rank, top, right), room)
                } else if top.is_before(member) {
                    let (behind, empty) = unboxed(right);
                    let (behind, room) = behind.without(member);
                    (fork(left, rank, top, boxed(empty, behind)), room)
                } else {
                    let (rest, room) = joined(left, rank, right);
                    (rest, Some(room))
                }
            }
        }
    }

    fn opened(self) -> Option<Sides<K>>
        ensures { MatchOption result (self ≡ []) (λ at. IsParted K.before self at.left.value at.top at.right.value) }
    {
        match self.node {
            Node::Leaf => None,
            Node::Fork(left, rank, top, right) => Some(Sides {
                left,
                rank,
                top,
                right,
            }),
        }
    }

    /// The first member, its room, and the others.
    fn without_first(self) -> Option<First<K>>
        ensures { MatchOption result (self ≡ []) (λ first. self ≡ first.member ∷ first.others) }
    {
        match self.opened() {
            None => None,
            Some(
                Sides {
                    left,
                    rank,
                    top,
                    right,
                },
            ) => {
                let (front, empty) = unboxed(left);
                match front.without_first() {
                    Some(
                        First {
                            member,
                            room,
                            others,
                        },
                    ) => Some(First {
                        member,
                        room,
                        others: fork(boxed(empty, others), rank, top, right),
                    }),
                    None => {
                        let (others, right) = unboxed(right);
                        Some(First {
                            member: top,
                            room: Room { left: empty, right },
                            others,
                        })
                    }
                }
            }
        }
    }
}

/// A member between two sides.
fn fork<K: Key>(left: Box<Order<K>>, rank: u64, top: K, right: Box<Order<K>>) -> Order<K>
    requires { Rises K.before (left.value ++ top ∷ right.value) }
    ensures { result ≡ left.value ++ top ∷ right.value }
{
    Order {
        node: Node::Fork(left, rank, top, right),
    }
}

/// What a box has, and the box.
fn unboxed<K: Key>(mut from: Box<Order<K>>) -> (Order<K>, Box<Order<K>>)
    ensures { result.0 ≡ from.value }
{
    let order = mem::replace(&mut *from, Order::empty());
    (order, from)
}

/// A box that has this.
fn boxed<K: Key>(mut into: Box<Order<K>>, order: Order<K>) -> Box<Order<K>>
    ensures { result.value ≡ order }
{
    *into = order;
    into
}

/// Two sides without what stood between them, and the room of that.
fn joined<K: Key>(left: Box<Order<K>>, rank: u64, right: Box<Order<K>>) -> (Order<K>, Room<K>)
    requires { Rises K.before (left.value ++ right.value) }
    ensures { result.0 ≡ left.value ++ right.value }
{
    let (behind, right) = unboxed(right);
    match behind.without_first() {
        Some(
            First {
                member,
                room,
                others,
            },
        ) => (fork(left, rank, member, boxed(right, others)), room),
        None => {
            let (all, left) = unboxed(left);
            (all, Room { left, right })
        }
    }
}
