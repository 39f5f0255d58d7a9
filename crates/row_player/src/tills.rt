//! Tills over loopback, served side by side. A list of steps says what they do, and only steps let time pass.
use crate::asked::Texts;
use crate::stage::Stage;
use crate::texts::number;
use std::alloc::{Alloc, Global};
use std::cell::{Cell, RefCell};
use std::io::{self, ErrorKind, Read, Write};
use std::marker::Model;
use std::net::{Net, Shutdown, SocketAddr, TcpListener, TcpStream};
use std::time::{Clock, Duration};

/// How many seconds of the real clock all steps may take.
const LONGEST: u64 = 60;

/// How many milliseconds of the steps' time the server waits for a till.
const PATIENCE: u32 = 50;

/// What a till does, or what it has to get before the next step is made.
#[derive(Clone, Copy)]
pub enum What {
    /// One more till comes. The first is 0.
    Comes,
    /// So many milliseconds pass, and the server looks at the clock again.
    Passes,
    /// The till sends the bytes.
    Sends,
    /// The till sends no more.
    Goes,
    /// The till receives the bytes, after the bytes that it received before.
    IsTold,
    /// The till receives nothing, and isn't disconnected.
    Waits,
    /// The till receives the end of the connection.
    IsLeft,
}

/// A step: what is done, by which till, or how many milliseconds pass.
#[derive(Drop)]
pub struct Step {
    pub what: What,
    pub number: u32,
    pub bytes: Vec<u8>,
}

/// Whether a step is made.
#[derive(Clone, Copy)]
enum Made {
    Now,
    /// The step can't be made yet.
    Later,
    Never,
}

/// Reports whether what the step wants has come, and reads it.
fn has_come(alloc: Global, mut stream: &TcpStream, step: &Step) -> Made {
    let wanted = step.bytes.as_slice();
    let if_nothing = match step.what {
        What::Waits => Made::Now,
        _ => Made::Later,
    };
    let Ok(mut bytes) = vec![in alloc; 0; wanted.len().max(1)] else {
        return Made::Never;
    };
    let n = match stream.peek(&mut bytes) {
        Ok(n) => n.min(bytes.len()),
        Err(e) if e.kind() == ErrorKind::WouldBlock => return if_nothing,
        Err(_) => return Made::Never,
    };
    match step.what {
        What::IsLeft if n == 0 => Made::Now,
        What::IsTold if n > 0 && wanted.starts_with(&bytes[..n]) => {
            if n < wanted.len() {
                Made::Later
            } else if stream.read_exact(&mut bytes).is_ok() {
                Made::Now
            } else {
                Made::Never
            }
        }
        _ => Made::Never,
    }
}

/// Makes the step of a till.
fn act(alloc: Global, mut stream: &TcpStream, step: &Step) -> Made {
    let is_done = match step.what {
        What::Sends => stream.write_all(step.bytes.as_slice()).is_ok(),
        What::Goes => stream.shutdown(Shutdown::Write).is_ok(),
        _ => return has_come(alloc, stream, step),
    };
    if is_done { Made::Now } else { Made::Never }
}

/// How far the steps are made.
#[derive(Drop)]
struct State {
    /// How many steps are made.
    made: usize,
    /// Whether a step can't be made.
    is_stuck: bool,
    /// The steps' time, in milliseconds.
    now: u64,
    /// When the steps began, by the real clock.
    begun: Duration,
    sockets: Vec<TcpStream>,
    /// How many tills are still to come.
    coming: u32,
}

/// Says nothing of the value. So its holder isn't checked over its parts.
impl Model for State {
    ghost use Rattle.std.specs.Prelude.{⊤};

    ghost Value = { ⊤ };

    ghost view = { λ _. tt };
}

impl State {
    /// Connects one more till. Reports whether it connected.
    fn come(&mut self, rt: &HostRuntime, server: Option<SocketAddr>) -> bool {
        let Some(server) = server else {
            return false;
        };
        self.coming = self.coming.saturating_sub(1);
        match TcpStream::connect(rt, server) {
            Ok(stream) => {
                stream.set_nonblocking(true).is_ok() && self.sockets.push(stream).is_ok()
            }
            Err(_) => false,
        }
    }

    /// Makes the step, if it can be made now. Reports whether the next step may be made before the server looks at the
    /// clock.
    fn make(&mut self, rt: &HostRuntime, server: Option<SocketAddr>, step: &Step) -> bool {
        let made = match step.what {
            What::Comes => {
                if self.come(rt, server) {
                    Made::Now
                } else {
                    Made::Never
                }
            }
            What::Passes => {
                self.now = self.now.saturating_add(u64::from(step.number));
                Made::Now
            }
            _ => match self.sockets.get(step.number as usize) {
                Some(stream) => act(rt.alloc(), stream, step),
                None => Made::Never,
            },
        };
        match made {
            Made::Now => self.made = self.made.saturating_add(1),
            Made::Later => {}
            Made::Never => self.is_stuck = true,
        }
        matches!(made, Made::Now) && !matches!(step.what, What::Passes)
    }

    /// Makes the next steps, as far as they can be made in time.
    fn go_on(&mut self, rt: &HostRuntime, server: Option<SocketAddr>, steps: &[Step]) {
        for _ in 0..steps.len() {
            let Some(step) = steps.get(self.made) else {
                break;
            };
            if !self.make(rt, server, step) {
                break;
            }
        }
        let is_late = match rt.monotonic() {
            Ok(now) => now.saturating_sub(self.begun) > Duration::from_secs(LONGEST),
            Err(_) => true,
        };
        if is_late {
            self.is_stuck = true;
        }
    }

    /// Makes the next steps, as far as they can be made. If none is left or a step can't be made, lets one till connect
    /// that hasn't come yet. Then disconnects all tills, and lets a second pass. Returns the steps' time, and whether
    /// all steps are made.
    fn advance(
        &mut self,
        rt: &HostRuntime,
        server: Option<SocketAddr>,
        steps: &[Step],
    ) -> (u64, bool) {
        if self.is_stuck || self.made >= steps.len() {
            if self.coming > 0 {
                let _ = self.come(rt, server);
            }
            self.sockets.clear();
            self.now = self.now.saturating_add(1000);
        } else {
            self.go_on(rt, server, steps);
        }
        (self.now, self.made >= steps.len() && !self.is_stuck)
    }
}

/// The tills as a runtime for their server. Each time the server looks at the clock, the tills go on as far as they
/// can.
#[derive(Drop)]
pub struct Tills<'t> {
    rt: &'t HostRuntime,
    /// Whether time passes by the real clock.
    is_real: bool,
    steps: &'t [Step],
    /// The address at which the server listens, as soon as it listens.
    server: Cell<Option<SocketAddr>>,
    state: RefCell<State>,
}

/// Says nothing of the value. So its holder isn't checked over its parts.
impl<'t> Model for Tills<'t> {
    ghost use Rattle.std.specs.Prelude.{⊤};

    ghost Value = { ⊤ };

    ghost view = { λ _. tt };
}

impl Tills<'_> {
    /// Lets the tills go on. Returns the steps' time, in milliseconds, and whether all steps are made.
    pub fn play(&self) -> (u64, bool) {
        let server = self.server.get();
        match self.state.try_borrow_mut() {
            Ok(mut state) => state.advance(self.rt, server, self.steps),
            Err(_) => (0, false),
        }
    }
}

impl Clock for Tills<'_> {
    fn monotonic(&self) -> io::Result<Duration> {
        if self.is_real {
            return self.rt.monotonic();
        }
        let (now, _) = self.play();
        Ok(Duration::from_millis(now))
    }

    fn since_1970(&self) -> io::Result<Duration> {
        self.rt.since_1970()
    }
}

impl Net for Tills<'_> {
    type Stream = TcpStream;

    type Listener = TcpListener;

    fn bind(&self, addr: SocketAddr) -> io::Result<TcpListener> {
        let listener = self.rt.bind(addr)?;
        self.server.set(Some(listener.local_addr()?));
        Ok(listener)
    }

    fn connect(&self, addr: SocketAddr) -> io::Result<TcpStream> {
        self.rt.connect(addr)
    }
}

impl Alloc for Tills<'_> {
    type A = Global;

    fn alloc(&self) -> Global {
        self.rt.alloc()
    }
}

/// Serves so many tills, and has all their steps made. `how` is empty for the steps' time, which passes as the server
/// goes on. With `port` the steps' time passes too, and the tills are served at a port, as the program serves. With a
/// number the real clock runs, and the server waits so many milliseconds for a till. The steps before the first that
/// wants something are then made before the serving, and the other steps after it.
pub fn serve_tills<S: Stage>(
    rt: &HostRuntime,
    stage: &mut S,
    steps: &[Step],
    comers: u32,
    how: &str,
    told: &mut Texts,
) {
    let (is_real, millis) = match how {
        "" => (false, Some(PATIENCE)),
        "port" => (false, None),
        _ => (true, Some(number(how, told))),
    };
    let state = State {
        made: 0,
        is_stuck: false,
        now: 0,
        begun: rt.monotonic().unwrap_or(Duration::ZERO),
        sockets: Vec::new(rt.alloc()),
        coming: comers,
    };
    let tills = Tills {
        rt,
        is_real,
        steps,
        server: Cell::new(None),
        state: RefCell::new(state),
    };
    let status = stage.listen(&tills, comers, millis);
    let (_, are_played) = tills.play();
    let is_well = status == 0 && are_played;
    told.needs(is_well, "a till isn't served as it should be");
}
