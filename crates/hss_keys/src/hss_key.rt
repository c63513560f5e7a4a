//! A key of one level or of two that counts its one-time keys.

ghost use Rattle.std.specs.Prelude.{◌≡◌, ◌+◌, ◌-◌, ◌<◌, ◌≤◌, IfOk, IfSome, length};
ghost use Rattle.lms_core.specs.Heights.{IsSigningHeight};
ghost use Rattle.lms_core.specs.Trees.{private_key};
ghost use Rattle.hss_core.specs.Hss.{Verifies};
ghost use Rattle.hss_keys.specs.Held.{newest_key};
ghost use Rattle.hss_keys.specs.Keys.{CountsKeys, keys_there, lower_key, most_children, public_of};
ghost use Rattle.hss_keys.specs.Keys.{key_signature, signature_length_with, signing_state};

use crate::lower::{Lower, copied, lower_tree};
use crate::signing::{sign_alone, sign_below};
use hss_core::PUBLIC_KEY_LEN;
use lmots_core::{OtsType, SigBuf, put};
use lms_core::{LmsType, Secret, Tree};
use mtc_io::Memory;
use std::alloc::Global;
use std::marker::Model;

/// A key of one level or of two that counts: it uses each of its one-time keys once, in their
/// order. Contracts see the private key of its top tree, the height of the lower trees, how many of
/// these it has, and the next number.
#[derive(Drop)]
pub struct HssKey {
    top: Tree,
    // The height of the lower trees, where there are two levels.
    low: Option<LmsType>,
    ots: OtsType,
    secret: Secret,
    // The newest lower tree, where there is one.
    newest: Option<Tree>,
    children: u32,
    next: u32,
}

impl Model for HssKey {
    ghost use Rattle.hss_keys.specs.Held.{HoldsTrees};
    ghost use Rattle.hss_keys.specs.Keys.{SigningState};

    ghost Value = { SigningState };

    ghost view = { λ k. record {
      key = record { top = k.top; low = k.low };
      children = k.children;
      next = k.next;
    } };

    ghost invariant = { λ k. HoldsTrees (record {
      key = record { top = k.top; low = k.low };
      children = k.children;
      next = k.next;
    }) k.ots k.secret k.newest };
}

// The newest of so many lower trees, where there are any.
fn newest_tree(
    alloc: Global,
    low: Option<LmsType>,
    ots: OtsType,
    secret: &Secret,
    children: u32,
) -> Result<Option<Tree>, Memory>
    requires { IfSome low IsSigningHeight }
    ensures { (top : LmsType) → IfOk result
        (λ t. t ≡ newest_key (private_key top ots secret.now) low children) }
{
    match low {
        Some(low) if children > 0 => {
            let tree = lower_tree(alloc, low, ots, secret, children - 1)?;
            Ok(Some(tree))
        }
        _ => Ok(None),
    }
}

impl HssKey {
    /// Makes the key of a secret, with trees of height 5 or 10: of one level where `low` is `None`,
    /// else with lower trees of that height, of which there are so many `children`. The one-time
    /// keys below `next` are used: all of the lower trees but the newest, and no more than there
    /// are. It hashes every chain of the top tree and of the newest lower one.
    ///
    /// # Errors
    /// `Memory`, where a tree finds no memory.
    pub fn make(
        alloc: Global,
        lms: LmsType,
        low: Option<LmsType>,
        ots: OtsType,
        secret: &Secret,
        children: u32,
        next: u32,
    ) -> Result<HssKey, Memory>
        requires { CountsKeys (signing_state lms low ots secret.now children next) }
        ensures { IfOk result (λ k. k ≡ signing_state lms low ots secret.now children next) }
    {
        let top = Tree::make(alloc, lms, ots, secret)?;
        let newest = newest_tree(alloc, low, ots, secret, children)?;
        Ok(HssKey {
            top,
            low,
            ots,
            secret: copied(secret),
            newest,
            children,
            next,
        })
    }

    /// How many lower trees it has.
    pub fn children(&self) -> u32
        ensures { result ≡ self.now.children }
    {
        self.children
    }

    /// How many lower trees it may have in addition.
    pub fn children_left(&self) -> u32
        ensures { result
            ≡ most_children self.now.key.top.lms self.now.key.low - self.now.children }
    {
        match self.low {
            None => 0,
            Some(_) => self.top.leaves() - self.children,
        }
    }

    /// The number of the one-time key that signs next.
    pub fn next(&self) -> u32
        ensures { result ≡ self.now.next }
    {
        self.next
    }

    /// How many one-time keys are left: of two levels, in the newest lower tree.
    pub fn left(&self) -> u32
        ensures value { result ≡ keys_there self.now.key.top.lms self.now.key.low self.now.children
            - self.now.next }
        ensures counts { CountsKeys self.now }
    {
        match self.low {
            None => self.top.leaves() - self.next,
            Some(low) => self.children * low.leaves() - self.next,
        }
    }

    /// The public key: the number of levels and that of the top tree (RFC 8554, section 6.1).
    #[tactic(auto, unfolding(hss_core::specs::Hss::one_level_public))]
    pub fn public(&self) -> [u8; PUBLIC_KEY_LEN]
        ensures { result ≡ public_of self.now.key }
    {
        let levels: u32 = match self.low {
            None => 1,
            Some(_) => 2,
        };
        let mut public = [0; PUBLIC_KEY_LEN];
        put(&mut public, 0, &levels.to_be_bytes());
        put(&mut public, 4, &self.top.public());
        public
    }

    /// Makes the next lower tree, which the key doesn't have yet. It is the same each time. The
    /// caller sees to it that the key has two levels, and fewer lower trees than upper one-time
    /// keys.
    ///
    /// # Errors
    /// `Memory`, where the tree finds no memory.
    pub fn prepare(&self, alloc: Global) -> Result<Lower, Memory>
        requires { self.now.children < most_children self.now.key.top.lms self.now.key.low }
        ensures { IfOk result (λ lower. IfSome self.now.key.low
            (λ low. lower ≡ lower_key self.now.key.top low self.now.children)) }
    {
        match self.low {
            Some(low) => {
                let tree = lower_tree(alloc, low, self.ots, &self.secret, self.children)?;
                Ok(Lower { tree })
            }
            None => unreachable!(),
        }
    }

    /// Takes a lower tree that this key has prepared in this state, in which each of its one-time
    /// keys has signed. It takes no memory.
    pub fn adopt(&mut self, lower: Lower)
        requires room { self.old.children < most_children self.old.key.top.lms self.old.key.low }
        requires used { self.old.next
            ≡ keys_there self.old.key.top.lms self.old.key.low self.old.children }
        requires prepared { IfSome self.old.key.low
            (λ low. lower ≡ lower_key self.old.key.top low self.old.children) }
        ensures { self.new ≡ record self.old { children = self.old.children + 1 } }
    {
        self.newest = Some(lower.tree);
        self.children += 1;
    }

    /// Makes the signature of a message by the next one-time key the whole of `out`, and counts
    /// that key as used (RFC 8554, section 6.2). The caller sees to it that one is left. It takes
    /// no memory.
    pub fn sign(&mut self, message: &[u8], out: &mut SigBuf)
        requires { self.old.next
            < keys_there self.old.key.top.lms self.old.key.low self.old.children }
        ensures signature { out.new ≡ key_signature self.old.key self.old.next message.now }
        ensures counted { self.new ≡ record self.old { next = self.old.next + 1 } }
        ensures verifies { Verifies (public_of self.old.key) message.now out.new }
        ensures size { length out.new ≡ signature_length_with self.old.key.top self.old.key.low }
    {
        self.sign_next(message, out);
        self.next += 1;
    }

    // The signature by the next one-time key, which isn't counted yet.
    fn sign_next(&self, message: &[u8], out: &mut SigBuf)
        requires { self.now.next
            < keys_there self.now.key.top.lms self.now.key.low self.now.children }
        ensures signature { out.new ≡ key_signature self.now.key self.now.next message.now }
        ensures size { length out.new ≡ signature_length_with self.now.key.top self.now.key.low }
        ensures id { length self.now.key.top.id ≡ 16 }
        ensures few { self.now.children
            ≤ most_children self.now.key.top.lms self.now.key.low }
    {
        match &self.newest {
            None => sign_alone(&self.top, self.next, message, out),
            Some(lower) => {
                let leaves = lower.leaves();
                let (c, r) = (self.next / leaves, self.next % leaves);
                sign_below(&self.top, c, lower, r, message, out);
            }
        }
    }
}
