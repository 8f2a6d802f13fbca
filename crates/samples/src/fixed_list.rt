// A list of at most N items, which lie in the value itself: no heap. It is not Copy, since the list that clauses see does not give back
// what stands behind the items.
ghost use Rattle.std.specs.Prelude.{◌≡◌, ◌-◌, ◌<◌, ◌≤◌, ◌==◌, [], ◌∷◌, ◌++◌, length, replicate};
ghost use Rattle.std.specs.List.{list_any};

use std::marker::Model;

#[derive(Drop)]
pub struct FixedList<T, const N: usize> {
    items: [T; N],
    len: u8,
}

// Clauses see the items that were pushed, in order.
impl<T, const N: usize> Model for FixedList<T, N> {
    ghost use Rattle.std.specs.Prelude.{◌≡◌, ◌<◌, ◌≤◌, List, length, take};
    ghost use Rattle.std.specs.Coded.{coded_list};

    ghost Value = { List T };

    ghost coded = { coded_list T.code };

    ghost view = { λ l. take l.len l.items };

    ghost invariant = { λ l. (l.len ≤ N) × (N < 256) × (length l.items ≡ N) };
}

impl<T: Copy, const N: usize> FixedList<T, N> {
    // An empty list; `blank` stands where no item does.
    pub fn new(blank: T) -> Self
        requires { N < 256 }
        ensures { result ≡ [] }
    {
        FixedList {
            items: [blank; N],
            len: 0,
        }
    }

    pub fn len(&self) -> u8
        ensures value { result ≡ length self.now }
        ensures fits { result ≤ N }
    {
        self.len
    }

    pub fn is_empty(&self) -> bool
        ensures { result ≡ (length self.now == 0) }
    {
        self.len == 0
    }

    pub fn is_full(&self) -> bool
        ensures value { result ≡ (length self.now == N) }
        ensures fits { length self.now ≤ N }
    {
        usize::from(self.len) == N
    }

    pub fn push(&mut self, item: T)
        requires { length self.old < N }
        ensures { self.new ≡ self.old ++ item ∷ [] }
    {
        self.items[usize::from(self.len)] = item;
        self.len += 1;
    }

    // The length is no more than N as it is: saying so again lets the compiler unroll loops over the items.
    pub fn as_slice(&self) -> &[T]
        ensures value { result.now ≡ self.now }
        ensures fits { length self.now ≤ N }
    {
        &self.items[..usize::from(self.len).min(N)]
    }

    pub fn contains(&self, item: &T) -> bool
    where
        T: PartialEq,
        ensures { result ≡ list_any (λ other. T.eq other item.now) self.now }
    {
        self.as_slice().contains(item)
    }

    // The items, and `blank` in each place behind them. The choice is made place by place: a copy of `len` items and a fill of the rest
    // are calls of memcpy and memset, which a host of the tag layer may lack.
    pub fn into_array(self, blank: T) -> [T; N]
        ensures { result ≡ self ++ replicate (N - length self) blank }
    {
        let mut items = self.items;
        for (place, item) in items.iter_mut().enumerate() {
            if place >= usize::from(self.len) {
                *item = blank;
            }
        }
        items
    }
}
