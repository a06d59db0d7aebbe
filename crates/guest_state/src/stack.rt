// A stack whose room is taken when it is made.
ghost use Rattle.std.specs.Prelude.{◌≡◌, ◌+◌, ◌<◌, ◌≤◌, ◌-◌, [], ◌∷◌, ◌++◌, reverse, replicate, length, take, drop, IfOk, Some, option_to_list, slice_get, slice_set, if◌then◌else◌};
ghost use Rattle.std.specs.Bool.{OnTrue, OnFalse};
ghost use Rattle.guest_state.specs.Heights.{above, below};

use std::alloc::{AllocError, Global};
use std::marker::Model;

/// A stack that takes no memory after it was made. Contracts see its elements, the last pushed first,
/// and how many it has room for.
#[derive(Drop)]
pub struct Stack<T> {
    items: Vec<T>,
    height: usize,
}

impl<T> Model for Stack<T> {
    ghost use Rattle.std.specs.Prelude.{◌≤◌, length, reverse, take};
    ghost use Rattle.guest_state.specs.Heights.{Stacked};

    ghost Value = { Stacked T };

    ghost view = { λ s. record { items = reverse (take s.height s.items.items); room = length s.items.items } };

    ghost invariant = { λ s. s.height ≤ length s.items.items };
}

impl<T: Copy> Stack<T> {
    /// An empty stack with room for so many elements. `filler` is never seen. `AllocError` is want of
    /// memory and nothing else.
    pub fn with_room(alloc: Global, filler: T, room: usize) -> Result<Stack<T>, AllocError>
        ensures { IfOk result (λ s. s ≡ record { items = []; room = room }) }
    {
        Ok(Stack {
            items: vec![in alloc; filler; room]?,
            height: 0,
        })
    }

    /// An empty stack without room. No memory is taken.
    pub fn without_room(alloc: Global) -> Stack<T>
        ensures { result ≡ record { items = []; room = 0 } }
    {
        Stack {
            items: Vec::new(alloc),
            height: 0,
        }
    }

    /// How many elements there are.
    #[inline(always)]
    pub fn len(&self) -> usize
        ensures value { result ≡ length self.now.items }
        ensures within { length self.now.items ≤ self.now.room }
    {
        self.height
    }

    /// Whether there is no room for another.
    #[inline(always)]
    pub fn is_full(&self) -> bool
        ensures full { OnTrue result (length self.now.items ≡ self.now.room) }
        ensures not_full { OnFalse result (length self.now.items < self.now.room) }
    {
        self.height == self.items.len()
    }

    /// Puts an element on top.
    #[inline(always)]
    pub fn push(&mut self, item: T)
        requires { length self.old.items < self.old.room }
        ensures { self.new ≡ record self.old { items = item ∷ self.old.items } }
    {
        self.items[self.height] = item;
        self.height += 1;
    }

    /// The element that has so many below it.
    #[inline(always)]
    pub fn at(&self, height: usize) -> T
        requires { height < length self.now.items }
        ensures { slice_get self.now.items (length self.now.items - 1 - height) ≡ Some result }
    {
        self.items[height]
    }

    /// The sum of two numbers, which is below the height.
    #[inline(always)]
    pub fn sum(&self, base: usize, offset: usize) -> usize
        requires { base + offset < length self.now.items }
        ensures { result ≡ base + offset }
    {
        prove!(self.height <= self.items.len());
        base + offset
    }

    /// So many elements from a height on, the first pushed first.
    pub fn range(&self, low: usize, count: usize) -> &[T]
        requires { low + count ≤ length self.now.items }
        ensures { result.now ≡ reverse (above low (below (low + count) self.now.items)) }
    {
        let items = self.items.as_slice();
        prove!(low + count <= items.len());
        &items[low..low + count]
    }

    /// Replaces the element that has so many below it.
    #[inline(always)]
    pub fn set(&mut self, height: usize, item: T)
        requires { height < length self.old.items }
        ensures { self.new ≡ record self.old { items = slice_set self.old.items (length self.old.items - 1 - height) item } }
    {
        self.items[height] = item;
    }

    /// Keeps the elements up to a height.
    #[inline(always)]
    pub fn keep(&mut self, height: usize)
        requires { height ≤ length self.old.items }
        ensures { self.new ≡ record self.old { items = below height self.old.items } }
    {
        self.height = height;
    }

    /// Keeps the elements up to a height, and where it is said so the last one above them.
    #[inline(always)]
    pub fn keep_with(&mut self, height: usize, last: bool)
        requires { height + (if last then 1 else 0) ≤ length self.old.items }
        ensures { self.new ≡ record self.old { items = take (if last then 1 else 0) self.old.items ++ below height self.old.items } }
    {
        if last {
            let item = self.at(self.len() - 1);
            self.keep(height);
            self.push(item);
        } else {
            self.keep(height);
        }
    }

    /// An equal stack. `AllocError` is want of memory and nothing else.
    pub fn copy(&self, alloc: Global) -> Result<Stack<T>, AllocError>
        ensures { IfOk result (λ s. s ≡ self.now) }
    {
        Ok(Stack {
            items: Vec::from_slice(alloc, self.items.as_slice())?,
            height: self.height,
        })
    }
}

/// Puts numbers on a stack, the last one on top, and then zeros.
#[inline(always)]
pub fn push_all(stack: &mut Stack<u64>, numbers: &[u64], zeros: usize)
    requires { length stack.old.items + length numbers.now + zeros ≤ stack.old.room }
    ensures { stack.new ≡ record stack.old { items = reverse (numbers.now ++ replicate zeros 0) ++ stack.old.items } }
{
    for number in numbers {
        stack.push(*number);
    }
    for _zero in 0..zeros {
        stack.push(0);
    }
}

/// Puts a number on a stack, if there is one.
pub fn push_option(stack: &mut Stack<u64>, number: Option<u64>)
    requires { length stack.old.items + length (option_to_list number) ≤ stack.old.room }
    ensures { stack.new ≡ record stack.old { items = option_to_list number ++ stack.old.items } }
{
    if let Some(number) = number {
        stack.push(number);
    }
}
