//! Lower trees, which are derived from the secret of a key of two levels.

ghost use Rattle.std.specs.Prelude.{◌≡◌, IfOk, take};
ghost use Rattle.lmots_core.specs.Strings.{value_at};
ghost use Rattle.lms_core.specs.Heights.{IsSigningHeight};
ghost use Rattle.lms_core.specs.Trees.{private_key};
ghost use Rattle.hss_keys.specs.Keys.{lower_key, lower_secret};

use lmots_core::{OtsType, put, read_32, secret_start};
use lms_core::{LmsType, SECRET_LEN, Secret, Tree};
use mtc_io::Memory;
use std::alloc::Global;
use std::marker::Model;

// The numbers at which the identifier and the seed of a lower tree are derived. Chains have numbers
// below 265, and the randomizer has 65533.
const IDENTIFIER: u16 = 65_534;

const SEED: u16 = 65_535;

/// A lower tree that was made for a key and is not yet one of its trees. Contracts see its private
/// key.
#[derive(Drop)]
pub struct Lower {
    pub(crate) tree: Tree,
}

impl Model for Lower {
    ghost use Rattle.lms_core.specs.declared.private_key.PrivateKey.{PrivateKey};

    ghost Value = { PrivateKey };

    ghost view = { λ l. l.tree };
}

// The identifier in a secret.
fn identifier(secret: &Secret) -> [u8; 16]
    ensures { result ≡ take 16 secret.now }
{
    let mut id = [0; 16];
    id.copy_from_slice(&secret.as_bytes()[..16]);
    id
}

// The secret of a lower tree, from that of the upper one.
#[tactic(auto, unfolding(crate::specs::Keys::lower_secret))]
fn lower_secret(secret: &Secret, number: u32) -> Secret
    ensures { result ≡ lower_secret (take 16 secret.now) number (value_at secret.now 16) }
{
    let id = identifier(secret);
    let seed = read_32(secret.as_bytes(), 16);
    let lower_id = secret_start(&id, number, &seed, IDENTIFIER);
    let lower_seed = secret_start(&id, number, &seed, SEED);
    let mut lower = [0; SECRET_LEN];
    put(&mut lower, 0, &lower_id[..16]);
    put(&mut lower, 16, &lower_seed);
    match Secret::from_slice(&lower) {
        Some(secret) => secret,
        None => unreachable!(),
    }
}

// The lower tree with a number, of the height `low` and the width of the upper tree.
pub(crate) fn lower_tree(
    alloc: Global,
    low: LmsType,
    ots: OtsType,
    secret: &Secret,
    number: u32,
) -> Result<Tree, Memory>
    requires { IsSigningHeight low }
    ensures { (top : LmsType) → IfOk result
        (λ t. t ≡ lower_key (private_key top ots secret.now) low number) }
{
    Tree::make(alloc, low, ots, &lower_secret(secret, number))
}

/// The same secret once more, for a key that holds it.
pub(crate) fn copied(secret: &Secret) -> Secret
    ensures { result ≡ secret.now }
{
    match Secret::from_slice(secret.as_bytes()) {
        Some(secret) => secret,
        None => unreachable!(),
    }
}
