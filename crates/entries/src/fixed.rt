// A list of up to N items, in an array.
ghost use Rattle.std.specs.Prelude.{◌≡◌, [], ◌∷◌, ◌++◌, ◌<◌, ◌≤◌, ℕ, Bool, get_or};
ghost use Rattle.basics.specs.Lists.{every_of, some_of};
ghost use Rattle.entries.specs.View.{few_of};

use crate::Few;

impl<T: Copy, const N: usize> Few<T, N> {
    // No items; blank ones past the count.
    pub fn empty(blank: T) -> Self
        ensures { (d : T) → few_of d result ≡ [] }
    {
        Few {
            items: [blank; N],
            count: 0,
        }
    }

    pub fn push(mut self, item: T) -> Self
        requires { self.count < N }
        ensures { (d : T) → few_of d result ≡ few_of d self ++ (item ∷ []) }
    {
        self.items[self.count] = item;
        self.count += 1;
        self
    }

    // Whether some item passes the test, which computes p.
    pub fn any<F: Fn(T) -> bool>(self, test: F) -> bool
        requires room { self.count ≤ N }
        requires can { (x : T) → F.pre test x }
        ensures { (p : T → Bool) → ((x : T) (b : Bool) → F.post test x b → b ≡ p x) → (d : T) → result ≡ some_of p (few_of d self) }
    {
        self.items[..self.count].iter().any(|item| test(*item))
    }

    // Whether each item passes the test, which computes p.
    pub fn all<F: Fn(T) -> bool>(self, test: F) -> bool
        requires room { self.count ≤ N }
        requires can { (x : T) → F.pre test x }
        ensures { (p : T → Bool) → ((x : T) (b : Bool) → F.post test x b → b ≡ p x) → (d : T) → result ≡ every_of p (few_of d self) }
    {
        self.items[..self.count].iter().all(|item| test(*item))
    }

    // Each item changed in its place: a list built anew would be copied at each item.
    pub fn map<F: Fn(T) -> T>(mut self, change: F) -> Self
        requires room { self.count ≤ N }
        requires can { (x : T) → F.pre change x }
        ensures count { result.count ≡ self.count }
        ensures each { (d : T) (i : ℕ) → i < self.count → F.post change (get_or self.items i d) (get_or result.items i d) }
    {
        // (By the place: of a `for` over a part of self that is lent for writing nothing is known after it.)
        for i in 0..self.count {
            self.items[i] = change(self.items[i]);
        }
        self
    }
}
