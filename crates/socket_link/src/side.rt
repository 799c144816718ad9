//! The sides of a link, each with its handshake.
ghost use Rattle.std.specs.Prelude.{◌≡◌, IfOk};
ghost use Rattle.socket_link.specs.Wires.{AreLimits, Greeted, Shaken};
ghost use Rattle.websocket.specs.declared.protocol.config.Role.{Role};

use crate::bounds::{HANDSHAKE_WAITS, LONGEST_MESSAGE};
use crate::exchange::{Broken, Socket, why};
use crate::heard::Heard;
use std::alloc::Global;
use std::io::{Read, Write};
use std::net::OpenStream;
use tungstenite::handshake::{HandshakeRole, client, server};
use tungstenite::{HandshakeError, MaskKeys, MidHandshake, NoCallback, NoMask, WebSocketConfig};

/// The side of a link: a server's is `NoMask`, and a client's `ClientSide`. It gives the keys that mask
/// the frames of its side.
pub trait Side: MaskKeys + Drop {
    /// Whether it is a server's or a client's.
    ghost role: { Role };

    /// Makes the handshake of this side on a stream. It fails where `HANDSHAKE_WAITS` waits have passed.
    fn shake_hands<S: Read + Write + OpenStream + Drop>(
        self,
        alloc: Global,
        stream: Heard<S>,
    ) -> Result<Socket<S, Self>, Broken>
        ensures { IfOk result (Shaken role) };
}

// The limits of a socket.
fn limits() -> WebSocketConfig
    ensures { AreLimits result }
{
    WebSocketConfig::default()
        .max_message_size(Some(LONGEST_MESSAGE))
        .max_frame_size(Some(LONGEST_MESSAGE))
}

// States the limits of a socket again, since the handshake doesn't say that it kept them.
fn with_limits<S: Read + Write + Drop, K: MaskKeys + Drop>(socket: Socket<S, K>) -> Socket<S, K>
    ensures { (role : Role) → Greeted role socket → Shaken role result }
{
    let mut socket = socket;
    socket.set_config(limits());
    socket
}

// Goes on with a handshake to its end. It fails where `HANDSHAKE_WAITS` waits have passed.
fn finish_handshake<R: HandshakeRole + Drop>(rounds: MidHandshake<R>) -> Result<R::Finished, Broken>
    ensures { IfOk result (λ finished. (role : R) × R.gives role finished) }
{
    let mut rounds = rounds;
    for _ in 0..HANDSHAKE_WAITS {
        match rounds.handshake() {
            Ok(finished) => return Ok(finished),
            Err(HandshakeError::Interrupted(again)) => rounds = again,
            Err(HandshakeError::Failure(error)) => return Err(why(&error)),
        }
    }
    Err(Broken::Fault)
}

impl Side for NoMask {
    ghost use Rattle.websocket.specs.declared.protocol.config.Role.TheVariants.{Server};

    ghost role = { Server };

    fn shake_hands<S: Read + Write + OpenStream + Drop>(
        self,
        alloc: Global,
        stream: Heard<S>,
    ) -> Result<Socket<S, NoMask>, Broken> {
        let rounds = server::start(alloc, stream, NoCallback, Some(limits()));
        let socket = finish_handshake(rounds)?;
        Ok(with_limits(socket))
    }
}

/// A client's side: the keys that mask its frames, and the port that its request names.
#[derive(Drop)]
pub struct ClientSide<M> {
    keys: M,
    port: u16,
}

impl<M: MaskKeys> ClientSide<M> {
    /// A client of a port of this machine. Its handshake and its frames take their keys here, and RFC
    /// 6455 wants keys that can't be foretold.
    pub fn new(keys: M, port: u16) -> ClientSide<M> {
        ClientSide { keys, port }
    }

    // Sixteen bytes for the key of a handshake.
    fn nonce(&mut self) -> [u8; 16] {
        let mut nonce = [0; 16];
        for at in 0..4 {
            let key = self.keys.next_key();
            for i in 0..4 {
                nonce[4 * at + i] = key[i];
            }
        }
        nonce
    }
}

impl<M: MaskKeys> MaskKeys for ClientSide<M> {
    fn next_key(&mut self) -> [u8; 4] {
        self.keys.next_key()
    }

    fn has_failed(&self) -> bool {
        self.keys.has_failed()
    }
}

impl<M: MaskKeys + Drop> Side for ClientSide<M> {
    ghost use Rattle.websocket.specs.declared.protocol.config.Role.TheVariants.{Client};

    ghost role = { Client };

    /// A handshake for which there are no keys fails.
    fn shake_hands<S: Read + Write + OpenStream + Drop>(
        self,
        alloc: Global,
        stream: Heard<S>,
    ) -> Result<Socket<S, ClientSide<M>>, Broken> {
        let mut side = self;
        let Ok(uri) = format!(in alloc; "ws://127.0.0.1:{}/", side.port) else {
            return Err(Broken::Memory);
        };
        let request = match client::request_of(alloc, uri.as_str()) {
            Ok(request) => request,
            Err(error) => return Err(why(&error)),
        };
        let nonce = side.nonce();
        if side.has_failed() {
            return Err(Broken::Fault);
        }
        match client::start(alloc, nonce, side, request, stream, Some(limits())) {
            Ok(rounds) => {
                let (socket, _) = finish_handshake(rounds)?;
                Ok(with_limits(socket))
            }
            Err(error) => Err(why(&error)),
        }
    }
}
