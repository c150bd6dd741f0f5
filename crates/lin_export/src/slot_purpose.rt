//! What a slot is for, by its entry.

ghost use Rattle.std.specs.Prelude.{◌≡◌, ◌==◌, ◌<◌, All, find, length};
ghost use Rattle.std.specs.List.{list_any};
ghost use Rattle.lin_parts.specs.Cluster.{frame_of};

use lin_frame::Answer;
use lin_parts::Cluster;

/// Whether a node put one of these responses.
fn has_put(puts: &[(u8, Answer)], node: u8) -> bool
    ensures { result ≡ list_any (λ put. put.0 == node) puts.now }
{
    puts.iter().any(|put| put.0 == node)
}

/// The first of these frames whose publisher put a response.
pub(crate) fn frame_put(cluster: &Cluster, frames: &[u16], puts: &[(u8, Answer)]) -> Option<u16>
    requires { All (λ f. f < length cluster.now.frames) frames.now }
    ensures { result
        ≡ find (λ f. list_any (λ put. put.0 == (frame_of cluster.now f).publisher) puts.now)
        frames.now }
{
    frames
        .iter()
        .copied()
        .find(|frame| has_put(puts, cluster.frame_publisher(*frame)))
}
