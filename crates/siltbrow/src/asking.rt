// What a server calls for many queries over the same tables, which are judged once.
ghost use Rattle.siltbrow.specs.ManyCalls.{ManyRan};

// One run for each record of `queries`, in turn. 1 where `queries` is no whole number of records or `answers` is not 24 bytes for each, and then
// nothing is written.
pub fn siltbrow_runs<'a>(
    vertices: &[u8],
    walks: &'a [u8],
    hops: &'a [u8],
    hop_size: u32,
    queries: &[u8],
    held: &mut [u8],
    settled: &mut [u8],
    answers: &mut [u8],
) -> u32
    ensures { ManyRan vertices.now walks.now hops.now hop_size queries.now held.old settled.old answers.old held.new settled.new answers.new result }
{
    if queries.len() % 24 != 0 {
        return 1;
    }
    if answers.len() != queries.len() {
        return 1;
    }
    queries::answer_all(
        vertices,
        walks,
        hops,
        hop_size as usize,
        queries,
        held,
        settled,
        answers,
    );
    0
}
