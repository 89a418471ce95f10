//! What no clause says: that calls succeed, and what the adapters to the host really do.

ghost use Rattle.std.specs.Prelude.{◌≡◌, ◌<◌, None, length};

use crate::{
    Bytes, Careful, Failed, HostClock, HostWorld, Image, ListClock, MemImage, MemSink, MemSource,
    MemWorld, OpenError, Role, Sink, Source, StdClock, SureImage, SureSink, SureSource, World,
};
use std::alloc::{AllocError, Global};
use std::fs;
use std::test::Fail;

// A test is proved line by line with all that it knows, so each keeps to values: devices and worlds
// are made, called and read in functions that promise nothing of what they give.

fn read<S: Source>(source: &mut S, buf: &mut [u8]) -> Result<usize, Failed>
    requires { 0 < length buf.old }
{
    source.read(buf)
}

/// The outcomes of two writes.
fn write_two<K: Sink>(sink: &mut K) -> [Result<usize, Failed>; 2]
    ensures role { K.role sink.new ≡ K.role sink.old }
{
    [sink.write(b"ab"), sink.write(b"cd")]
}

fn put<K: Sink>(careful: &mut Careful<K>, bytes: &[u8]) -> Result<(), Failed> {
    careful.put_all(bytes)
}

fn len_of<I: Image>(image: &I) -> u64 {
    image.len()
}

/// None where the image has too few bytes.
fn read_at<I: Image>(image: &mut I, at: u32, buf: &mut [u8]) -> Option<Result<(), Failed>> {
    let end = u64::from(at) + buf.len() as u64;
    if image.len() < end {
        return None;
    }
    Some(image.read_at(u64::from(at), buf))
}

fn now<C: HostClock>(clock: &mut C) -> u64 {
    clock.now()
}

fn mem_source(alloc: Global) -> Result<MemSource, AllocError> {
    let bytes = [1, 2, 3, 4, 5].to_vec(alloc)?;
    let chunks = [2, 9, 0].to_vec(alloc)?;
    Ok(MemSource::new(bytes, chunks, [1].to_vec(alloc)?))
}

#[test]
fn a_source_gives_its_chunks_and_fails_on_demand(rt: HostRuntime) -> Result<(), Fail> {
    let mut source = mem_source(rt.alloc())?;
    let mut buf = [0u8; 4];
    assert_eq!(rt; read(&mut source, &mut buf), Ok(2));
    assert_eq!(rt; buf, [1, 2, 0, 0]);
    assert_eq!(rt; read(&mut source, &mut buf), Err(Failed));
    assert_eq!(rt;
        read(&mut source, &mut buf),
        Ok(1),
        "a chunk of 0 gives one byte"
    );
    assert_eq!(rt;
        read(&mut &mut source, &mut buf),
        Ok(2),
        "past the list as many as fit"
    );
    assert_eq!(rt; buf, [4, 5, 0, 0]);
    assert_eq!(rt; read(&mut source, &mut buf), Ok(0));
    Ok(())
}

/// A sink whose second call fails.
fn mem_sink(alloc: Global) -> Result<MemSink, AllocError> {
    Ok(MemSink::new(alloc, [1].to_vec(alloc)?))
}

fn write<K: Sink>(sink: &mut K, bytes: &[u8]) -> Result<usize, Failed>
    requires { 0 < length bytes.now }
{
    sink.write(bytes)
}

#[test]
fn a_sink_fails_on_demand_and_keeps_the_rest(rt: HostRuntime) -> Result<(), Fail> {
    let mut sink = mem_sink(rt.alloc())?;
    assert_eq!(rt; write_two(&mut sink), [Ok(2), Err(Failed)]);
    assert_eq!(rt; write(&mut &mut sink, b"ef"), Ok(2));
    assert_eq!(rt; sink.bytes(), b"abef".as_slice());
    Ok(())
}

#[test]
fn a_failing_sink_ends_a_piece(rt: HostRuntime) -> Result<(), Fail> {
    let mut careful = Careful::new(mem_sink(rt.alloc())?);
    assert_eq!(rt; put(&mut careful, b"ab"), Ok(()));
    assert_eq!(rt; put(&mut careful, b"cd"), Err(Failed));
    assert_eq!(rt; put(&mut careful, b""), Ok(()));
    assert_eq!(rt; careful.into_inner().bytes(), b"ab".as_slice());
    Ok(())
}

/// Takes one byte a write.
#[derive(Drop)]
struct Drip {
    sink: SureSink,
}

impl Sink for Drip {
    ghost role = { λ _. None };

    ghost taken = { λ d. d.sink };

    ghost faults = { λ _. 0 };

    fn write(&mut self, bytes: &[u8]) -> Result<usize, Failed> {
        self.sink.write(&bytes[..1])
    }
}

fn dripping(alloc: Global) -> Careful<Drip> {
    let sink = SureSink::new(alloc);
    Careful::new(Drip { sink })
}

// Where memory is refused the sink takes all the same, and tells nothing.
#[test]
fn a_piece_is_written_byte_by_byte(rt: HostRuntime) {
    let mut careful = dripping(rt.alloc());
    assert_eq!(rt; put(&mut careful, b"abc"), Ok(()));
    if let Some(bytes) = careful.into_inner().sink.bytes() {
        assert_eq!(rt; bytes, b"abc".as_slice());
    }
}

fn mem_image(alloc: Global) -> Result<MemImage, AllocError> {
    let bytes = Bytes::of(alloc, b"disk")?;
    Ok(MemImage::new(bytes.into_vec(), [1].to_vec(alloc)?))
}

#[test]
fn an_image_is_read_at_any_place(rt: HostRuntime) -> Result<(), Fail> {
    let mut image = mem_image(rt.alloc())?;
    assert_eq!(rt; len_of(&image), 4);
    let mut buf = [0u8; 2];
    assert_eq!(rt; read_at(&mut image, 2, &mut buf), Some(Ok(())));
    assert_eq!(rt; buf, *b"sk");
    assert_eq!(rt; read_at(&mut image, 0, &mut buf), Some(Err(Failed)));
    Ok(())
}

fn list_clock(alloc: Global, values: &[u64]) -> Result<ListClock, AllocError> {
    Ok(ListClock::new(values.to_vec(alloc)?))
}

#[test]
fn a_clock_gives_its_last_value_again(rt: HostRuntime) -> Result<(), Fail> {
    let mut clock = list_clock(rt.alloc(), &[5, 9])?;
    assert_eq!(rt; now(&mut clock), 5);
    assert_eq!(rt; now(&mut clock), 9);
    assert_eq!(rt; now(&mut clock), 9);
    let mut none = list_clock(rt.alloc(), &[])?;
    assert_eq!(rt; now(&mut none), 0);
    Ok(())
}

fn sure_source(alloc: Global) -> Result<SureSource, AllocError> {
    Ok(SureSource::new(b"abc".to_vec(alloc)?))
}

fn sure_image(alloc: Global) -> Result<SureImage, AllocError> {
    Ok(SureImage::new(b"abc".to_vec(alloc)?))
}

#[test]
fn sure_devices_give_all(rt: HostRuntime) -> Result<(), Fail> {
    let mut source = sure_source(rt.alloc())?;
    let mut buf = [0u8; 2];
    assert_eq!(rt; read(&mut source, &mut buf), Ok(2));
    assert_eq!(rt; read(&mut source, &mut buf), Ok(1));
    assert_eq!(rt; buf, *b"cb");
    let mut image = sure_image(rt.alloc())?;
    assert_eq!(rt; len_of(&image), 3);
    assert_eq!(rt; read_at(&mut image, 1, &mut buf), Some(Ok(())));
    assert_eq!(rt; buf, *b"bc");
    Ok(())
}

/// A world where the second write to a log fails.
fn log_world(alloc: Global) -> Result<MemWorld, AllocError> {
    let mut world = MemWorld::new(alloc);
    world.set_failing(Role::LogOut, [1].to_vec(alloc)?);
    Ok(world)
}

/// The outcomes of two writes to a log, and what the world tells of it before it has the sink back.
fn log_two(
    alloc: Global,
    world: &mut MemWorld,
) -> Result<([Result<usize, Failed>; 2], Vec<u8>), Fail> {
    let mut sink = world.sink(Role::LogOut, Some("log"))?;
    let writes = write_two(&mut sink);
    let early = world.written(Role::LogOut).to_vec(alloc)?;
    world.take_sink(Role::LogOut, sink);
    Ok((writes, early))
}

#[test]
fn a_world_in_memory_tells_what_a_sink_had_taken(rt: HostRuntime) -> Result<(), Fail> {
    let mut world = log_world(rt.alloc())?;
    let (writes, early) = log_two(rt.alloc(), &mut world)?;
    assert_eq!(rt; writes, [Ok(2), Err(Failed)]);
    assert_eq!(rt; early.as_slice(), b"".as_slice());
    assert_eq!(rt; world.written(Role::LogOut), b"ab".as_slice());
    assert_eq!(rt; world.opened(Role::LogOut), 1);
    assert_eq!(rt; world.opened(Role::ConsoleOut), 0);
    Ok(())
}

fn input_world(alloc: Global) -> Result<MemWorld, AllocError> {
    let mut world = MemWorld::new(alloc);
    world.add_file("a", b"old".to_vec(alloc)?)?;
    world.add_file("a", b"new".to_vec(alloc)?)?;
    world.set_input(b"in".to_vec(alloc)?);
    // Opens 0 and 1 have a name, then comes one with none, and then open 2.
    world.set_failing_opens([2].to_vec(alloc)?);
    Ok(world)
}

/// The outcome of one read of a source that is opened and given back.
fn open_and_read<W: World>(
    world: &mut W,
    role: Role,
    name: Option<&str>,
    buf: &mut [u8],
) -> Result<Result<usize, Failed>, OpenError>
    requires { 0 < length buf.old }
{
    let mut source = world.source(role, name)?;
    let count = read(&mut source, buf);
    world.take_source(role, source);
    Ok(count)
}

/// Why an image isn't opened, and none where it is.
fn image_refused<W: World>(world: &mut W, name: &str) -> Option<OpenError> {
    match world.image(Some(name)) {
        Ok(image) => {
            world.take_image(image);
            None
        }
        Err(error) => Some(error),
    }
}

#[test]
fn a_world_in_memory_opens_what_was_added(rt: HostRuntime) -> Result<(), Fail> {
    let mut world = input_world(rt.alloc())?;
    let mut buf = [0u8; 3];
    let firmware = Role::Firmware;
    let new = open_and_read(&mut world, firmware, Some("a"), &mut buf);
    assert_eq!(rt; new, Ok(Ok(3)));
    assert_eq!(rt; buf, *b"new");
    let missing = open_and_read(&mut world, firmware, Some("b"), &mut buf);
    assert_eq!(rt; missing, Err(OpenError::Failed));
    let input = open_and_read(&mut world, Role::ConsoleIn, None, &mut buf);
    assert_eq!(rt; input, Ok(Ok(2)));
    assert_eq!(rt; image_refused(&mut world, "a"), Some(OpenError::Failed));
    assert_eq!(rt; world.opened(firmware), 1);
    Ok(())
}

fn disk_world(alloc: Global) -> Result<MemWorld, AllocError> {
    let mut world = MemWorld::new(alloc);
    world.add_file("disk", b"abcd".to_vec(alloc)?)?;
    world.set_failing_disk([0].to_vec(alloc)?);
    Ok(world)
}

fn image_of<W: World>(world: &mut W, name: &str) -> Result<W::Image, OpenError> {
    world.image(Some(name))
}

fn image_back<W: World>(world: &mut W, image: W::Image) {
    world.take_image(image);
}

#[test]
fn a_world_in_memory_has_a_disk(rt: HostRuntime) -> Result<(), Fail> {
    let mut world = disk_world(rt.alloc())?;
    let mut buf = [0u8; 2];
    let mut image = image_of(&mut world, "disk")?;
    assert_eq!(rt; len_of(&image), 4);
    assert_eq!(rt; read_at(&mut image, 0, &mut buf), Some(Err(Failed)));
    assert_eq!(rt; read_at(&mut image, 1, &mut buf), Some(Ok(())));
    assert_eq!(rt; buf, *b"bc");
    image_back(&mut world, image);
    Ok(())
}

fn clock_world(alloc: Global) -> Result<MemWorld, AllocError> {
    let mut world = MemWorld::new(alloc);
    world.set_clock([3].to_vec(alloc)?);
    Ok(world)
}

fn clock_of<W: World>(world: &mut W) -> W::Clock {
    world.clock()
}

fn clock_back<W: World>(world: &mut W, clock: W::Clock) {
    world.take_clock(clock);
}

#[test]
fn a_world_in_memory_has_a_clock(rt: HostRuntime) -> Result<(), Fail> {
    let mut world = clock_world(rt.alloc())?;
    let mut clock = clock_of(&mut world);
    assert_eq!(rt; now(&mut clock), 3);
    clock_back(&mut world, clock);
    Ok(())
}

/// The outcome of a write to a file.
fn write_file<W: World>(world: &mut W, name: &str) -> Result<Result<usize, Failed>, OpenError> {
    let mut sink = world.sink(Role::LogOut, Some(name))?;
    let count = sink.write(b"abcd");
    world.take_sink(Role::LogOut, sink);
    Ok(count)
}

#[test]
fn a_file_of_the_host_gives_back_what_was_written(rt: HostRuntime) -> Result<(), Fail> {
    let name = "outside-adapters.tmp";
    let mut world = HostWorld::new(rt);
    assert_eq!(rt; write_file(&mut world, name), Ok(Ok(4)));
    let mut buf = [0u8; 3];
    let log = open_and_read(&mut world, Role::LogIn, Some(name), &mut buf);
    assert_eq!(rt; log, Ok(Ok(3)));
    assert_eq!(rt; buf, *b"abc");
    let mut image = image_of(&mut world, name)?;
    assert_eq!(rt; len_of(&image), 4);
    assert_eq!(rt; read_at(&mut image, 1, &mut buf), Some(Ok(())));
    assert_eq!(rt; buf, *b"bcd");
    image_back(&mut world, image);
    // The file becomes longer, so it can't be opened as an image again.
    fs::write(&rt, name, "abcde")?;
    assert_eq!(rt; image_refused(&mut world, name), Some(OpenError::Failed));
    fs::remove_file(&rt, name)?;
    let removed = open_and_read(&mut world, Role::LogIn, Some(name), &mut buf);
    assert_eq!(rt; removed, Err(OpenError::Failed));
    Ok(())
}

#[test]
fn the_clock_of_the_host_runs(rt: HostRuntime) {
    let mut world = HostWorld::new(rt);
    let mut clock: StdClock = clock_of(&mut world);
    let first = now(&mut clock);
    assert!(rt; first > 0);
    assert!(rt; now(&mut clock) >= first);
    clock_back(&mut world, clock);
}
