// A slider changes only the duration: what two finished runs over the same tables have in common, in either direction.
// Promises: the settled bytes of the shorter run begin those of the longer one, and the longer list is cut at the first distance above the shorter time; what the shorter covers the longer covers. Laws alone.
// Rests on: the order of settling and the demands of `journeys`, the demands of the calls (`siltbrow`).

#![tactic(auto)]
