//! Signatures of one level and of two.

ghost use Rattle.std.specs.Prelude.{◌≡◌, ◌+◌, ◌<◌, ◌^◌, length};
ghost use Rattle.hss_core.specs.Hss.{one_level_signature};
ghost use Rattle.lms_core.specs.Heights.{IsSigningHeight, height, lms_signature_length};
ghost use Rattle.hss_keys.specs.Keys.{two_level_signature};

use lmots_core::SigBuf;
use lms_core::Tree;

// Makes the signature of a tree that is alone the whole of `out` (RFC 8554, section 6.2).
#[tactic(auto, unfolding(hss_core::specs::Hss::one_level_signature))]
pub fn sign_alone(tree: &Tree, q: u32, message: &[u8], out: &mut SigBuf)
    requires high { IsSigningHeight tree.now.lms }
    requires index { q < 2 ^ height tree.now.lms }
    ensures bytes { out.new ≡ one_level_signature tree.now q message.now }
    ensures size { length out.new ≡ 4 + lms_signature_length tree.now.lms tree.now.ots }
    ensures id { length tree.now.id ≡ 16 }
{
    out.clear();
    out.append(&0u32.to_be_bytes());
    tree.sign(q, message, out);
}

// Makes the signature of two trees the whole of `out`: the upper one signs the public key of the
// lower one, which signs the message (RFC 8554, section 6.2).
#[tactic(auto, unfolding(crate::specs::Keys::two_level_signature))]
pub fn sign_below(top: &Tree, c: u32, lower: &Tree, r: u32, message: &[u8], out: &mut SigBuf)
    requires high { IsSigningHeight top.now.lms }
    requires low { IsSigningHeight lower.now.lms }
    requires upper_index { c < 2 ^ height top.now.lms }
    requires lower_index { r < 2 ^ height lower.now.lms }
    ensures bytes { out.new ≡ two_level_signature top.now lower.now c r message.now }
    ensures size { length out.new ≡ 4 + lms_signature_length top.now.lms top.now.ots + 56
        + lms_signature_length lower.now.lms lower.now.ots }
    ensures top_id { length top.now.id ≡ 16 }
    ensures lower_id { length lower.now.id ≡ 16 }
{
    out.clear();
    out.append(&1u32.to_be_bytes());
    let public = lower.public();
    top.sign(c, &public, out);
    out.append(&public);
    lower.sign(r, message, out);
}
