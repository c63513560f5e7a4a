//! A tree with its nodes, which signs.

ghost use Rattle.std.specs.Prelude.{◌≡◌, ◌+◌, ◌*◌, ◌<◌, ◌≤◌, ◌^◌, ◌++◌, length, IfOk};
ghost use Rattle.lms_core.specs.Heights.{IsSigningHeight, height, lms_signature_length};
ghost use Rattle.lms_core.specs.Trees.{lms_public, lms_signature, private_key};

use crate::checking::PUBLIC_KEY_LEN;
use crate::climbing::put_path;
use crate::growing::{fill_inner, fill_leaves};
use crate::heights::LmsType;
use crate::private_key::PrivateKey;
use crate::secret::Secret;
use lmots_core::{OtsType, SigBuf, put};
use mtc_io::Memory;
use std::alloc::Global;
use std::marker::Model;

/// A tree of one-time keys with all its nodes: 2 kilobytes at height 5, 64 at height 10. Contracts
/// see its private key.
#[derive(Drop)]
pub struct Tree {
    key: PrivateKey,
    // Node r of the standard stands at index r; index 0 is not used.
    nodes: Vec<[u8; 32]>,
}

impl Model for Tree {
    ghost use Rattle.lms_core.specs.declared.private_key.PrivateKey.{PrivateKey};

    ghost Value = { PrivateKey };

    ghost use Rattle.lms_core.specs.Held.{HoldsNodes};

    ghost view = { λ t. t.key };

    ghost invariant = { λ t. HoldsNodes t.key t.nodes.items };
}

impl Tree {
    /// Makes the tree of a secret, at height 5 or 10. It hashes every chain of every one-time key.
    ///
    /// # Errors
    /// `Memory`, where the nodes find no memory.
    pub fn make(alloc: Global, lms: LmsType, ots: OtsType, secret: &Secret) -> Result<Tree, Memory>
        requires { IsSigningHeight lms }
        ensures { IfOk result (λ t. t ≡ private_key lms ots secret.now) }
    {
        Tree::of_key(alloc, PrivateKey::of_secret(lms, ots, secret))
    }

    /// Makes the tree of a private key, at height 5 or 10, as `make` does of a secret.
    ///
    /// # Errors
    /// `Memory`, where the nodes find no memory.
    pub fn of_key(alloc: Global, key: PrivateKey) -> Result<Tree, Memory>
        requires { IsSigningHeight key.lms }
        ensures { IfOk result (λ t. t ≡ key) }
    {
        let leaves = key.lms.leaves();
        let mut nodes = vec![in alloc; [0u8; 32]; 2 * leaves as usize]?;
        fill_leaves(&key, leaves, &mut nodes);
        fill_inner(&key, leaves, &mut nodes);
        Ok(Tree { key, nodes })
    }

    /// Its private key.
    pub fn key(&self) -> &PrivateKey
        ensures { result.now ≡ self.now }
    {
        &self.key
    }

    /// The number of its one-time keys.
    pub fn leaves(&self) -> u32
        ensures { result ≡ 2 ^ height self.now.lms }
    {
        self.key.lms.leaves()
    }

    /// The public key: both typecodes, the identifier and the root (RFC 8554, section 5.3).
    #[tactic(auto, unfolding(crate::specs::Trees::lms_public))]
    pub fn public(&self) -> [u8; PUBLIC_KEY_LEN]
        ensures { result ≡ lms_public self.now }
    {
        let mut public = [0; PUBLIC_KEY_LEN];
        put(&mut public, 0, &self.key.lms.typecode().to_be_bytes());
        put(&mut public, 4, &self.key.ots.typecode().to_be_bytes());
        put(&mut public, 8, &self.key.id);
        put(&mut public, 24, &self.nodes[1]);
        public
    }

    /// Appends the signature of a message by one-time key `q` to what `out` holds (RFC 8554,
    /// section 5.4.1). It is the same each time, and no two messages may be signed with one `q`:
    /// the caller counts.
    #[tactic(auto, unfolding(crate::specs::Trees::lms_signature))]
    pub fn sign(&self, q: u32, message: &[u8], out: &mut SigBuf)
        requires index { q < 2 ^ height self.now.lms }
        requires capacity { length out.old + lms_signature_length self.now.lms self.now.ots
            ≤ 17748 }
        ensures bytes { out.new ≡ out.old ++ lms_signature self.now q message.now }
        ensures size { length out.new
            ≡ length out.old + lms_signature_length self.now.lms self.now.ots }
        ensures id { length self.now.id ≡ 16 }
    {
        out.append(&q.to_be_bytes());
        lmots_core::sign(self.key.ots, &self.key.id, q, &self.key.seed, message, out);
        out.append(&self.key.lms.typecode().to_be_bytes());
        put_path(&self.key, &self.nodes, q, out);
    }
}
