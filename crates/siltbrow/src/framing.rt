// What the map viewer calls for its frame, beside the calls of the search.
ghost use Rattle.siltbrow.specs.FrameCall.{FrameAnswered};

// The frame of a settled list. The answer slice gets its six numbers; 1 where it is not 24 bytes, and then nothing is written.
pub fn siltbrow_frame(vertices: &[u8], list: &[u8], coordinates: &[u8], answer: &mut [u8]) -> u32
    ensures { FrameAnswered vertices.now list.now coordinates.now answer.old answer.new result }
{
    if answer.len() != 24 {
        return 1;
    }
    let mut marks = [0u16; 2048];
    let a = frame::frame_of(vertices, list, coordinates, &mut marks);
    frame::put(answer, frame::in_numbers(a));
    0
}
