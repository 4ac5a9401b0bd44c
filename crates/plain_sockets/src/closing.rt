ghost use Rattle.std.specs.Prelude.{◌≡◌, IfSome};
ghost use Rattle.plain_bytes.specs.Many.{Fade, queues_of};
ghost use Rattle.plain_sockets.specs.Held.{FrontsFollow, HasSocket, OnlyFades, queue_of, sockets_in};
ghost use Rattle.posix_defs.specs.SocketLinks.{AreLinked, AreLoose, WaitsNowhere};
ghost use Rattle.posix_defs.specs.Sockets.{after_close, all_gone, gone, left_alone, socket_at};

use crate::socket::Socket;
use crate::sockets::Sockets;

impl Sockets {
    /// A socket goes, which no descriptor names any more, and those that wait for it go too.
    pub fn close(&mut self, place: u32)
        requires there { HasSocket self.old place }
        requires linked { AreLinked (sockets_in self.old) }
        requires alone { WaitsNowhere (sockets_in self.old) place }
        ensures sockets { sockets_in self.new ≡ after_close (sockets_in self.old) place }
        ensures fronts { FrontsFollow self.old self.new }
    {
        let socket = self.go(place);
        self.all_go(socket.waiting());
    }

    // One goes and is handed out, and its peer stays connected to nobody.
    fn go(&mut self, place: u32) -> Socket
        requires there { HasSocket self.old place }
        requires linked { AreLinked (sockets_in self.old) }
        ensures socket { result.socket ≡ socket_at (sockets_in self.old) place }
        ensures sockets { sockets_in self.new ≡ gone (sockets_in self.old) place }
        ensures fades { OnlyFades self.old self.new }
    {
        let socket = self.remove(place);
        self.part(socket.peer());
        socket
    }

    // A peer stays connected to nobody.
    fn part(&mut self, peer: Option<u32>)
        requires { IfSome peer (λ place. HasSocket self.old place) }
        ensures sockets { sockets_in self.new ≡ left_alone (sockets_in self.old) peer }
        ensures fade { Fade (queues_of queue_of self.old) (queues_of queue_of self.new) }
    {
        if let Some(peer) = peer {
            self.leave_alone(peer);
        }
    }

    // These go, one after another.
    fn all_go(&mut self, places: &[u32])
        requires linked { AreLinked (sockets_in self.old) }
        requires loose { AreLoose (sockets_in self.old) places.now }
        ensures sockets { sockets_in self.new ≡ all_gone (sockets_in self.old) places.now }
        ensures fade { Fade (queues_of queue_of self.old) (queues_of queue_of self.new) }
    {
        for place in places {
            self.go(*place);
        }
    }
}
