// What C links: the archive's exported functions, which include/siltbrow.h declares.
// Promises: of each the clauses of the function of `siltbrow` that it hands its arguments to, word for word. What they mean is told there.
// Rests on: `siltbrow`. A crate is a library for other crates or one for C, and not both, so the calls stand in two.
#![tactic(auto)]

ghost use Rattle.std.specs.Prelude.{◌≡◌};
ghost use Rattle.journeys.specs.Refusals.{check};
ghost use Rattle.records.specs.Asked.{query_by};
ghost use Rattle.intake.specs.Lending.{lent};
ghost use Rattle.siltbrow.specs.Packed.{packed};
ghost use Rattle.siltbrow.specs.Ran.{Ran, CourierRan};
ghost use Rattle.covering.specs.Lending.{parts_lent, courier_parts_lent};
ghost use Rattle.siltbrow.specs.PartsRan.{PartsRan, CourierPartsRan};
ghost use Rattle.siltbrow.specs.FrameCall.{FrameAnswered};
ghost use Rattle.moves.specs.Moved.{lengthened, shortened, forward_refusal, backward_refusal, leaves};
ghost use Rattle.journeys.specs.VendorLists.{judge_refusal};
ghost use Rattle.vendors.specs.Lending.{judge_lent};
ghost use Rattle.siltbrow.specs.ManyCalls.{ManyRan};
ghost use Rattle.siltbrow.specs.HourlyCall.{HourlyRan};
ghost use Rattle.timetable.specs.Lent.{feed_of, Called};
ghost use Rattle.journeys.specs.CourierMaking.{making_refusal, made};
ghost use Rattle.courier_intake.specs.Lending.{courier_lent};
ghost use Rattle.riding.specs.Lending.{ride_lent};
ghost use Rattle.ride_demands.specs.RideRan.{RideRan};

#[unsafe(no_mangle)]
pub extern "C" fn siltbrow_check(vertices: &[u8], walks: &[u8], hops: &[u8], hop_size: u32) -> u64
    ensures { result ≡ packed (check hop_size vertices.now walks.now hops.now) }
{
    siltbrow::siltbrow_check(vertices, walks, hops, hop_size)
}

#[unsafe(no_mangle)]
pub extern "C" fn siltbrow_run<'a>(
    vertices: &[u8],
    walks: &'a [u8],
    hops: &'a [u8],
    hop_size: u32,
    record_number: u32,
    offset: u32,
    arrival: i32,
    duration: u32,
    speed: u32,
    limit: u32,
    held: &mut [u8],
    settled: &mut [u8],
    answer: &mut [u8],
) -> u32
    ensures { Ran (lent vertices.now walks.now hops.now hop_size held.old settled.old) (query_by record_number offset arrival duration speed) limit answer.old held.new settled.new answer.new result }
{
    siltbrow::siltbrow_run(
        vertices,
        walks,
        hops,
        hop_size,
        record_number,
        offset,
        arrival,
        duration,
        speed,
        limit,
        held,
        settled,
        answer,
    )
}

#[unsafe(no_mangle)]
pub extern "C" fn siltbrow_parts(
    vertices: &[u8],
    walks: &[u8],
    hops: &[u8],
    hop_size: u32,
    record_number: u32,
    offset: u32,
    arrival: i32,
    duration: u32,
    speed: u32,
    list: &[u8],
    parts: &mut [u8],
    answer: &mut [u8],
) -> u32
    ensures { PartsRan (parts_lent vertices.now walks.now hops.now hop_size list.now parts.old) (query_by record_number offset arrival duration speed) answer.old parts.new answer.new result }
{
    siltbrow::siltbrow_parts(
        vertices,
        walks,
        hops,
        hop_size,
        record_number,
        offset,
        arrival,
        duration,
        speed,
        list,
        parts,
        answer,
    )
}

#[unsafe(no_mangle)]
pub extern "C" fn siltbrow_frame(
    vertices: &[u8],
    list: &[u8],
    coordinates: &[u8],
    answer: &mut [u8],
) -> u32
    ensures { FrameAnswered vertices.now list.now coordinates.now answer.old answer.new result }
{
    siltbrow::siltbrow_frame(vertices, list, coordinates, answer)
}

#[unsafe(no_mangle)]
pub extern "C" fn siltbrow_hops_forward(source: &[u8], target: &mut [u8]) -> u64
    ensures value { result ≡ packed (forward_refusal source.now target.old) }
    ensures target_after { target.new ≡ leaves (forward_refusal source.now target.old) (lengthened source.now) target.old }
{
    siltbrow::siltbrow_hops_forward(source, target)
}

#[unsafe(no_mangle)]
pub extern "C" fn siltbrow_hops_backward(source: &[u8], target: &mut [u8]) -> u64
    ensures value { result ≡ packed (backward_refusal source.now target.old) }
    ensures target_after { target.new ≡ leaves (backward_refusal source.now target.old) (shortened source.now) target.old }
{
    siltbrow::siltbrow_hops_backward(source, target)
}

#[unsafe(no_mangle)]
pub extern "C" fn siltbrow_judge(
    vertices: &[u8],
    walks: &[u8],
    hops: &[u8],
    hop_size: u32,
    record_number: u32,
    offset: u32,
    arrival: i32,
    duration: u32,
    speed: u32,
    list: &[u8],
) -> u64
    ensures { result ≡ packed (judge_refusal (judge_lent vertices.now walks.now hops.now hop_size list.now) (query_by record_number offset arrival duration speed)) }
{
    siltbrow::siltbrow_judge(
        vertices,
        walks,
        hops,
        hop_size,
        record_number,
        offset,
        arrival,
        duration,
        speed,
        list,
    )
}

#[unsafe(no_mangle)]
pub extern "C" fn siltbrow_runs<'a>(
    vertices: &[u8],
    walks: &'a [u8],
    hops: &'a [u8],
    hop_size: u32,
    queries: &[u8],
    held: &mut [u8],
    settled: &mut [u8],
    answers: &mut [u8],
) -> u32
    ensures { ManyRan vertices.now walks.now hops.now hop_size queries.now held.old settled.old answers.old held.new settled.new answers.new result }
{
    siltbrow::siltbrow_runs(
        vertices, walks, hops, hop_size, queries, held, settled, answers,
    )
}

#[unsafe(no_mangle)]
pub extern "C" fn siltbrow_patients<'a>(
    vertices: &[u8],
    walks: &'a [u8],
    hops: &'a [u8],
    hop_size: u32,
    record_number: u32,
    offset: u32,
    arrival: i32,
    duration: u32,
    speed: u32,
    gap: u32,
    arrivals: u32,
    patients: &[u8],
    held: &mut [u8],
    settled: &mut [u8],
    report: &mut [u8],
    answer: &mut [u8],
) -> u32
    ensures { HourlyRan (lent vertices.now walks.now hops.now hop_size held.old settled.old) (query_by record_number offset arrival duration speed) gap arrivals patients.now report.old answer.old held.new settled.new report.new answer.new result }
{
    siltbrow::siltbrow_patients(
        vertices,
        walks,
        hops,
        hop_size,
        record_number,
        offset,
        arrival,
        duration,
        speed,
        gap,
        arrivals,
        patients,
        held,
        settled,
        report,
        answer,
    )
}

#[unsafe(no_mangle)]
pub extern "C" fn siltbrow_timetable(
    stop_times: &[u8],
    stops: &[u8],
    trips: &[u8],
    hops: &mut [u8],
    answer: &mut [u8],
) -> u32
    ensures { Called (feed_of stop_times.now stops.now trips.now hops.old) answer.old hops.new answer.new result }
{
    siltbrow::siltbrow_timetable(stop_times, stops, trips, hops, answer)
}

#[unsafe(no_mangle)]
pub extern "C" fn siltbrow_courier_list(
    vertices: &[u8],
    walks: &[u8],
    hops: &[u8],
    hop_size: u32,
    list: &mut [u8],
) -> u64
    ensures value { result ≡ packed (making_refusal hop_size vertices.now walks.now hops.now list.old) }
    ensures list_after { list.new ≡ (made hop_size vertices.now walks.now hops.now list.old).list }
{
    siltbrow::siltbrow_courier_list(vertices, walks, hops, hop_size, list)
}

#[unsafe(no_mangle)]
pub extern "C" fn siltbrow_courier_parts(
    vertices: &[u8],
    walks: &[u8],
    hops: &[u8],
    hop_size: u32,
    records: &[u8],
    record_number: u32,
    offset: u32,
    departure: i32,
    duration: u32,
    speed: u32,
    list: &[u8],
    parts: &mut [u8],
    answer: &mut [u8],
) -> u32
    ensures { CourierPartsRan (courier_parts_lent vertices.now walks.now hops.now hop_size records.now list.now parts.old) (query_by record_number offset departure duration speed) answer.old parts.new answer.new result }
{
    siltbrow::siltbrow_courier_parts(
        vertices,
        walks,
        hops,
        hop_size,
        records,
        record_number,
        offset,
        departure,
        duration,
        speed,
        list,
        parts,
        answer,
    )
}

#[unsafe(no_mangle)]
pub extern "C" fn siltbrow_courier<'a>(
    vertices: &[u8],
    walks: &'a [u8],
    hops: &'a [u8],
    hop_size: u32,
    list: &[u8],
    record_number: u32,
    offset: u32,
    departure: i32,
    duration: u32,
    speed: u32,
    limit: u32,
    held: &mut [u8],
    settled: &mut [u8],
    answer: &mut [u8],
) -> u32
    ensures { CourierRan (courier_lent vertices.now walks.now hops.now hop_size list.now held.old settled.old) (query_by record_number offset departure duration speed) limit answer.old held.new settled.new answer.new result }
{
    siltbrow::siltbrow_courier(
        vertices,
        walks,
        hops,
        hop_size,
        list,
        record_number,
        offset,
        departure,
        duration,
        speed,
        limit,
        held,
        settled,
        answer,
    )
}

#[unsafe(no_mangle)]
pub extern "C" fn siltbrow_run_boarding(
    vertices: &[u8],
    walks: &[u8],
    hops: &[u8],
    hop_size: u32,
    record_number: u32,
    offset: u32,
    arrival: i32,
    duration: u32,
    speed: u32,
    boarding: u32,
    limit: u32,
    settled: &mut [u8],
    scratch: &mut [u8],
    answer: &mut [u8],
) -> u32
    ensures { RideRan (ride_lent vertices.now walks.now hops.now hop_size settled.old scratch.old) (query_by record_number offset arrival duration speed) boarding limit answer.old settled.new scratch.new answer.new result }
{
    siltbrow::siltbrow_run_boarding(
        vertices,
        walks,
        hops,
        hop_size,
        record_number,
        offset,
        arrival,
        duration,
        speed,
        boarding,
        limit,
        settled,
        scratch,
        answer,
    )
}
