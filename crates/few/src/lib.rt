// A list of at most N items in fixed memory: the first `count` entries are its items, and the others are filler.
// The kit's `ArrayVec` is such a list too, but it is not `Copy`, so that a struct that holds one, as a job or a fleet, can't be.
#![tactic(auto)]

ghost use Rattle.std.specs.Prelude.{◌≡◌, ◌<◌, ◌≤◌, ◌↔◌, [], ◌∷◌, ◌++◌, length, IsOk, OnOk, OnErr, ⊤};

use std::alloc::AllocError;

pub struct Few<T, const N: usize> {
    items: [T; N],
    count: usize,
    ghost few: { count ≤ N },
    // said again, as lemmas see the list alone and not its type
    ghost whole: { length items ≡ N },
}

// By hand: over ghost fields there is no derive for items of any type.
impl<T: Copy, const N: usize> Clone for Few<T, N> {
    ghost is_clone = { λ few copy. copy ≡ few };

    ghost is_infallible = { λ _. ⊤ };

    fn clone(&self) -> Result<Self, AllocError> {
        Ok(*self)
    }
}

impl<T: Copy, const N: usize> Copy for Few<T, N> {}

// There is no room for one item more.
#[derive(Clone, Copy, PartialEq, Debug)]
pub struct Full;

impl<T: Copy, const N: usize> Few<T, N> {
    ghost use Rattle.few.specs.Told.{told};

    // No item yet.
    pub fn new(filler: T) -> Few<T, N>
        ensures { told result ≡ [] }
    {
        Few {
            items: [filler; N],
            count: 0,
        }
    }

    pub fn len(&self) -> usize
        ensures { result ≡ length (told self.now) }
    {
        self.as_slice().len()
    }

    pub fn as_slice(&self) -> &[T]
        ensures { result.now ≡ told self.now }
    {
        &self.items[..self.count]
    }

    // One item more, after those before; none where there is no room.
    pub fn push(&mut self, item: T) -> Result<(), Full>
        ensures room { IsOk result ↔ (length (told self.old) < N) }
        ensures added { OnOk result (told self.new ≡ told self.old ++ item ∷ []) }
        ensures kept { OnErr result (self.new ≡ self.old) }
    {
        if self.count == N {
            return Err(Full);
        }
        self.items[self.count] = item;
        self.count += 1;
        Ok(())
    }
}

#[cfg(test)]
mod tests {
    use super::*;
    use std::test::Fail;

    #[test]
    fn a_third_of_two_has_no_room(rt: HostRuntime) -> Result<(), Fail> {
        let mut few: Few<u8, 2> = Few::new(0);
        assert_eq!(rt; few.len(), 0);
        assert_eq!(rt; few.push(7), Ok(()));
        assert_eq!(rt; few.push(8), Ok(()));
        assert_eq!(rt; few.push(9), Err(Full));
        assert_eq!(rt; few.len(), 2);
        assert_eq!(rt; few.as_slice(), [7, 8].as_slice());
        Ok(())
    }

    #[test]
    fn a_copy_goes_its_own_way(rt: HostRuntime) -> Result<(), Fail> {
        let mut few: Few<u8, 3> = Few::new(0);
        let _ = few.push(1);
        let copy = few;
        let _ = few.push(2);
        assert_eq!(rt; copy.as_slice(), [1].as_slice());
        assert_eq!(rt; few.as_slice(), [1, 2].as_slice());
        Ok(())
    }
}
