//! Laws of landmarks: the clauses are the laws, and the functions do nothing.

ghost use Rattle.std.specs.Prelude.{◌≡◌, ◌+◌, ◌≤◌, ℕ, List, ◌∷◌, length, min, slice_index, Ok};
ghost use Rattle.byte_formats.specs.Types.{Text};
ghost use Rattle.landmarks.specs.Landmarks.{IsAllowed, IsLandmarks, LandmarkList, active_count};
ghost use Rattle.landmarks.specs.Landmarks.{landmarks_of, landmark_size};
ghost use Rattle.landmarks.specs.Texts.{list_of, list_text};

/// As many landmarks as may be are active, where there are as many. The listed ones have the sizes
/// at which the log was marked, and landmark 0 has size 0.
pub fn law_landmarks_have_their_sizes()
    ensures count { (marks : List ℕ) (most : ℕ)
        → active_count (landmarks_of marks most) ≡ min most (length marks) }
    ensures size { (marks : List ℕ) (most number : ℕ)
        → length marks ≤ number + min most (length marks) → number ≤ length marks
        → landmark_size (landmarks_of marks most) number ≡ slice_index (0 ∷ marks) number }
{}

/// A text that is read is that of what was read, which may be active and is within the log; and the
/// text of such landmarks is read as them.
pub fn law_lists_are_read_as_written()
    ensures read { (text : Text) (most log_size : ℕ) (l : LandmarkList)
        → list_of text most log_size ≡ Ok l
        → (text ≡ list_text l) × (IsLandmarks l × IsAllowed most log_size l) }
    ensures again { (most log_size : ℕ) (l : LandmarkList) → IsLandmarks l
        → IsAllowed most log_size l → list_of (list_text l) most log_size ≡ Ok l }
{}
