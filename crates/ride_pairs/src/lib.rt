// The run with a boarding time beside the other calls: the parts of its list, and the ordinary run where there is no boarding time.
// Promises: which places a call for the parts of its list covers; with a boarding time of 0 the bytes of the ordinary run, and of its parts. Laws alone.
// Rests on: the calls of `siltbrow` by name, the demands of the run with a boarding time (`ride_demands`), the theory of `boarding`.

#![tactic(auto)]
