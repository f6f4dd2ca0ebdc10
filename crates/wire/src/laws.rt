// What is true of frames and hellos.
ghost use Rattle.std.specs.Prelude.{◌≡◌, ◌*◌, ◌<◌, ℕ, List, ◌++◌, length, Ok, Err};
ghost use Rattle.wire.specs.declared.bad_frame.BadFrame.{BadFrame};
ghost use Rattle.wire.specs.declared.fields.Hello.{Hello};
ghost use Rattle.served_bytes.specs.Front.{Malformed, Truncated, Whole};
ghost use Rattle.tape_file.specs.Format.{words_at};
ghost use Rattle.wire.specs.Frames.{IsFrameable, AreBytes, frame_bytes, framed, header_of};
ghost use Rattle.wire.specs.Hellos.{HasDigests, greeted, hello_bytes, hello_of};

/// Law: a message of 1 to 2,048 words is read of its frame, whatever comes after it; what is read was spelled so, and is such a message;
/// so a frame begins no other.
pub fn frames_have_one_spelling()
    ensures read_again { (m rest : List ℕ) → IsFrameable m → framed (frame_bytes m ++ rest) ≡ Whole m rest }
    ensures spelled_so { (bytes m rest : List ℕ) → AreBytes bytes → framed bytes ≡ Whole m rest →
        IsFrameable m × (bytes ≡ frame_bytes m ++ rest) }
    ensures apart { (m n rest other : List ℕ) → IsFrameable m → IsFrameable n →
        frame_bytes m ++ rest ≡ frame_bytes n ++ other → (m ≡ n) × (rest ≡ other) }
{}

/// Law: what bytes begin with is what is read in pieces: of fewer than five bytes no frame; a header that is refused is broken at the same
/// place; fewer bytes than its words have are no frame; and the words are those of the bytes that follow.
pub fn frames_are_read_in_pieces()
    ensures short { (bytes : List ℕ) → length bytes < 5 → framed bytes ≡ Truncated }
    ensures broken { (head rest : List ℕ) (e : BadFrame) → length head ≡ 5 → header_of head ≡ Err e →
        framed (head ++ rest) ≡ Malformed e.place }
    ensures cut { (head rest : List ℕ) (count : ℕ) → length head ≡ 5 → header_of head ≡ Ok count →
        length rest < 8 * count → framed (head ++ rest) ≡ Truncated }
    ensures came { (head body rest : List ℕ) (count : ℕ) → length head ≡ 5 → header_of head ≡ Ok count →
        length body ≡ 8 * count → framed (head ++ (body ++ rest)) ≡ Whole (words_at 0 count body) rest }
{}

/// Law: a hello is read of its bytes, whatever comes after it; what is read was spelled so.
pub fn hellos_have_one_spelling()
    ensures read_again { (hello : Hello) (rest : List ℕ) → HasDigests hello → greeted (hello_bytes hello ++ rest) ≡ Whole hello rest }
    ensures spelled_so { (bytes rest : List ℕ) (hello : Hello) → greeted bytes ≡ Whole hello rest →
        HasDigests hello × (bytes ≡ hello_bytes hello ++ rest) }
{}

/// Law: what bytes begin with is what is read of the first 68: of fewer no hello; one that is refused is broken at the same place.
pub fn hellos_are_read_whole()
    ensures short { (bytes : List ℕ) → length bytes < 68 → greeted bytes ≡ Truncated }
    ensures broken { (head rest : List ℕ) (e : BadFrame) → length head ≡ 68 → hello_of head ≡ Err e →
        greeted (head ++ rest) ≡ Malformed e.place }
    ensures came { (head rest : List ℕ) (hello : Hello) → length head ≡ 68 → hello_of head ≡ Ok hello →
        greeted (head ++ rest) ≡ Whole hello rest }
{}
