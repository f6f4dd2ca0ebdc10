// Hellos as bytes.
ghost use Rattle.std.specs.Prelude.{◌≡◌, ◌++◌, IfOk, OnOk, OnErr};
ghost use Rattle.wire.specs.Hellos.{hello_bytes, hello_of};

use crate::bad_frame::BadFrame;
use crate::fields::Hello;
use std::alloc::AllocError;

/// The first byte of each hello.
const HELLO: u8 = 0;

/// Appends a hello in 68 bytes: byte 0, version, sender, receiver, the digest of the code, the digest of what is public. With no memory
/// left the bytes are as before.
pub fn hello(hello: &Hello, out: &mut Vec<u8>) -> Result<(), AllocError>
    ensures ok { OnOk result (out.new.items ≡ out.old.items ++ hello_bytes hello.now) }
    ensures err { OnErr result (out.new.items ≡ out.old.items) }
{
    out.reserve(68)?;
    out.extend_from_slice(&[HELLO, hello.version, hello.sender, hello.receiver])?;
    out.extend_from_slice(&hello.code)?;
    out.extend_from_slice(&hello.public)?;
    Ok(())
}

/// The hello in these bytes. `BadFrame` is for a first byte other than 0 (place 0).
#[tactic(auto, unfolding(crate::specs::Hellos::hello_of))]
pub fn read_hello(bytes: &[u8; 68]) -> Result<Hello, BadFrame>
    ensures reads { result ≡ hello_of bytes.now }
    ensures spelled_so { IfOk result (λ hello. hello_bytes hello ≡ bytes.now) }
{
    if bytes[0] != HELLO {
        return Err(BadFrame { place: 0 });
    }
    let mut code = [0; 32];
    let mut public = [0; 32];
    code.copy_from_slice(&bytes[4..36]);
    public.copy_from_slice(&bytes[36..]);
    Ok(Hello {
        version: bytes[1],
        sender: bytes[2],
        receiver: bytes[3],
        code,
        public,
    })
}
