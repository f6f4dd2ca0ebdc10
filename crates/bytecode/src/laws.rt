ghost use Rattle.std.specs.Prelude.{◌≡◌, ◌<◌, ℕ, List, Ok};
ghost use Rattle.std.specs.List.{All};
ghost use Rattle.bytecode.specs.Raw.{RawCode};
ghost use Rattle.bytecode.specs.Written.{written_code};
ghost use Rattle.bytecode.specs.Writable.{IsWritable};
ghost use Rattle.bytecode.specs.Decoded.{decoded};

/// Law: what is written of code that can be written is read again as that code.
pub fn written_code_is_read_again()
    ensures { (code : RawCode) → IsWritable code → decoded (written_code code) ≡ Ok code }
{}

/// Law: a text of bytes that is read as code is what would be written of it, and the code can be written.
pub fn read_code_is_written()
    ensures { (text : List ℕ) (code : RawCode) → All (λ byte. byte < 256) text → decoded text ≡ Ok code →
        (written_code code ≡ text) × IsWritable code }
{}
