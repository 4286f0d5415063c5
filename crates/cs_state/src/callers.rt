//! The call stack below the running frame.
ghost use Rattle.std.specs.Prelude.{◌≡◌, ◌≤◌, [], ◌∷◌, length, drop, reverse, slice_get, None, Some, IfSome, IfOk, OnOk, OnErr};

use crate::frame::Frame;
use cs_pmap::PMap;
use std::alloc::{AllocError, Global};
use std::marker::Model;
use std::rc::Rc;

/// A frame that several states share.
#[derive(Drop)]
pub struct SharedFrame {
    frame: Rc<Frame>,
}

impl Model for SharedFrame {
    ghost use Rattle.cs_state.specs.declared.frame.Frame.{Frame};

    ghost Value = { Frame };

    ghost view = { λ s. s.frame.value };
}

impl SharedFrame {
    /// Makes a frame shareable.
    pub fn new(alloc: Global, frame: Frame) -> Result<SharedFrame, AllocError>
        ensures { IfOk result (λ shared. shared ≡ frame) }
    {
        Ok(SharedFrame {
            frame: Rc::new(alloc, frame)?,
        })
    }

    /// Returns the frame.
    pub fn frame(&self) -> &Frame
        ensures { result.now ≡ self.now }
    {
        self.frame.as_ref()
    }
}

impl Clone for SharedFrame {
    ghost is_clone = { λ shared copy. copy ≡ shared };

    fn clone(&self) -> Result<SharedFrame, AllocError> {
        Ok(SharedFrame {
            frame: self.frame.clone()?,
        })
    }
}

/// The callers of the running frame. A contract sees a list, the nearest caller first. Copies share the frames.
#[derive(Drop)]
pub struct Callers {
    // Keyed by `(depth, 0)`; the entry's frame has depth 0.
    frames: PMap<SharedFrame>,
    depth: u64,
}

impl Model for Callers {
    ghost use Rattle.std.specs.Prelude.{List};
    ghost use Rattle.cs_state.specs.declared.frame.Frame.{Frame};

    ghost Value = { List Frame };

    ghost use Rattle.cs_state.specs.Callers.{nearest_first};

    ghost view = { λ c. nearest_first c.frames c.depth };
}

impl Callers {
    /// Returns an empty call stack.
    pub fn new(alloc: Global) -> Callers
        ensures { result ≡ [] }
    {
        Callers {
            frames: PMap::new(alloc),
            depth: 0,
        }
    }

    /// Returns the number of callers.
    pub fn depth(&self) -> u64
        ensures { result ≡ length self.now }
    {
        self.depth
    }

    /// Returns the caller of the running frame, if there is one.
    pub fn nearest(&self) -> Option<&Frame>
        ensures { IfSome result (λ frame. slice_get self.now 0 ≡ Some frame.now) }
    {
        let depth = self.depth.checked_sub(1)?;
        match self.frames.get((depth, 0)) {
            Some(shared) => Some(shared.frame()),
            None => None,
        }
    }

    /// Returns the caller at a depth, if there is one; the entry's frame has depth 0.
    pub fn at(&self, depth: u64) -> Option<&Frame>
        ensures some { IfSome result (λ frame.
            slice_get (reverse self.now) depth ≡ Some frame.now) }
        ensures none { length self.now ≤ depth → result ≡ None }
    {
        if depth >= self.depth {
            return None;
        }
        match self.frames.get((depth, 0)) {
            Some(shared) => Some(shared.frame()),
            None => None,
        }
    }

    /// Returns the caller with a number, if there is one.
    pub fn numbered(&self, number: u64) -> Option<&Frame>
        ensures { IfSome result (λ frame. frame.now.number ≡ number) }
    {
        for depth in 0..self.depth {
            if let Some(shared) = self.frames.get((depth, 0))
                && shared.frame().number == number
            {
                return Some(shared.frame());
            }
        }
        None
    }

    /// Adds a frame as the nearest caller.
    pub fn push(&mut self, frame: SharedFrame) -> Result<(), AllocError>
        ensures ok { OnOk result (self.new ≡ frame ∷ self.old) }
        ensures err { OnErr result (self.new ≡ self.old) }
    {
        let Some(depth) = self.depth.checked_add(1) else {
            return Err(AllocError);
        };
        self.frames.insert((self.depth, 0), frame)?;
        self.depth = depth;
        Ok(())
    }

    /// Removes the nearest caller, if there is one.
    pub fn drop_nearest(&mut self)
        ensures { self.new ≡ drop 1 self.old }
    {
        if self.depth > 0 {
            self.depth -= 1;
        }
    }
}

impl Clone for Callers {
    ghost is_clone = { λ callers copy. copy ≡ callers };

    fn clone(&self) -> Result<Callers, AllocError> {
        Ok(Callers {
            frames: self.frames.copy()?,
            depth: self.depth,
        })
    }
}
